// Words of code in the making: those of the machine, and jumps to labels whose addresses are not known yet.
ghost use Rattle.std.specs.Prelude.{◌≡◌};
ghost use Rattle.assembly.specs.Words.{packed, instruction_word};
ghost use Rattle.assembler.specs.Jumps.{operation};

use machine::word::{pack, parts};
use runs::instruction::Instruction;

// BRU and BRZ to a label, by the operations that stand for them, whose operand is the label's symbol. They leave a code when
// it is settled: the machine has no operation above 10.
#[derive(Clone, Copy, PartialEq, Eq, Debug)]
pub enum Jump {
    Always = 11,
    IfZero = 12,
}

// The word of a jump to the label with this symbol.
pub fn jump_word(jump: Jump, symbol: u16) -> u16
    ensures { result ≡ packed (operation jump) symbol }
{
    pack(jump as u16, symbol)
}

// The word of an instruction.
pub fn instruction_word(instruction: Instruction) -> u16
    ensures { result ≡ instruction_word instruction }
{
    let (operation, operand) = parts(instruction);
    pack(operation, operand)
}

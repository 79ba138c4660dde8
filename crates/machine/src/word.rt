// Words of code: taken apart, made, and held against the size of the code and the cells in use.
ghost use Rattle.std.specs.Prelude.{◌≡◌, ◌+◌, ◌*◌, ◌/◌, ◌%◌, ◌<◌, ◌≤◌};
ghost use Rattle.runs.specs.Machine.{opcode, operand, called, inside, decode as decoded, asked as asks};
ghost use Rattle.machine.specs.Packing.{encoded};

use runs::instruction::Instruction;

// The numbers of the operations, and what operation 10 calls by its operand. They are constants and no enum, since a word holds
// numbers: from a number to an enum's variant there would be one match more.
const BRU: u16 = 0;

const BRZ: u16 = 1;

const BRN: u16 = 2;

const BRP: u16 = 3;

const ADA: u16 = 4;

const SUB: u16 = 5;

const MUL: u16 = 6;

const DIV: u16 = 7;

const LDA: u16 = 8;

const STA: u16 = 9;

const CALL: u16 = 10;

const READ: u16 = 0;

const CONVERT: u16 = 1;

const NEWLINE: u16 = 2;

const STOP: u16 = 3;

// An operand has 12 bits.
const OPERANDS: u16 = 4_096;

// A word's operation.
pub fn operation(word: u16) -> u16
    ensures { result ≡ word / 4096 }
{
    word >> 12
}

// A word's operand: its low 12 bits.
pub fn low_bits(word: u16) -> u16
    ensures { result ≡ word % 4096 }
{
    word & 0xfff
}

// The low 4 bits of an operation and the low 12 bits of an operand in one word.
pub fn pack(operation: u16, operand: u16) -> u16
    ensures { result ≡ operation % 16 * 4096 + operand % 4096 }
{
    (operation & 0xf) << 12 | low_bits(operand)
}

// An instruction's operation and operand.
pub fn parts(instruction: Instruction) -> (u16, u16)
    ensures operation { result.0 ≡ opcode instruction }
    ensures operand { result.1 ≡ operand instruction }
    ensures small { result.0 ≤ 10 }
{
    match instruction {
        Instruction::Bru(a) => (BRU, a),
        Instruction::Brz(a) => (BRZ, a),
        Instruction::Brn(a) => (BRN, a),
        Instruction::Brp(a) => (BRP, a),
        Instruction::Ada(a) => (ADA, a),
        Instruction::Sub(a) => (SUB, a),
        Instruction::Mul(a) => (MUL, a),
        Instruction::Div(a) => (DIV, a),
        Instruction::Lda(a) => (LDA, a),
        Instruction::Sta(a) => (STA, a),
        Instruction::Read => (CALL, READ),
        Instruction::Convert => (CALL, CONVERT),
        Instruction::Newline => (CALL, NEWLINE),
        Instruction::Stop => (CALL, STOP),
    }
}

// The word that an instruction is made into, or `None` where its operand has more than 12 bits. `encode` and `decode` are functions and no
// TryFrom: `Instruction` belongs to `runs`, which holds no running code.
pub fn encode(instruction: Instruction) -> Option<u16>
    ensures { result ≡ encoded instruction }
{
    let (operation, operand) = parts(instruction);
    (operand < OPERANDS).then(|| pack(operation, operand))
}

// What a word means, or `None` where it means nothing: an operation above 10, or a call above 3.
pub fn decode(word: u16) -> Option<Instruction>
    ensures { result ≡ decoded word }
{
    let a = low_bits(word);
    let instruction = match operation(word) {
        BRU => Instruction::Bru(a),
        BRZ => Instruction::Brz(a),
        BRN => Instruction::Brn(a),
        BRP => Instruction::Brp(a),
        ADA => Instruction::Ada(a),
        SUB => Instruction::Sub(a),
        MUL => Instruction::Mul(a),
        DIV => Instruction::Div(a),
        LDA => Instruction::Lda(a),
        STA => Instruction::Sta(a),
        CALL => called(a)?,
        _ => return None,
    };
    Some(instruction)
}

// What operation 10 calls.
fn called(operand: u16) -> Option<Instruction>
    ensures { result ≡ called «operand» }
{
    match operand {
        READ => Some(Instruction::Read),
        CONVERT => Some(Instruction::Convert),
        NEWLINE => Some(Instruction::Newline),
        STOP => Some(Instruction::Stop),
        _ => None,
    }
}

// Whether a jump leads into a code of this size, or a cell is among so many in use.
fn is_inside(instruction: Instruction, size: usize, used: usize) -> bool
    ensures { result ≡ inside size used instruction }
{
    match instruction {
        Instruction::Bru(a) | Instruction::Brz(a) | Instruction::Brn(a) | Instruction::Brp(a) =>
            usize::from(a) < size,
        Instruction::Ada(a)
        | Instruction::Sub(a)
        | Instruction::Mul(a)
        | Instruction::Div(a)
        | Instruction::Lda(a)
        | Instruction::Sta(a) => usize::from(a) < used,
        Instruction::Read | Instruction::Convert | Instruction::Newline | Instruction::Stop => true,
    }
}

// What a word asks for, in a code of this size with so many cells in use; `None` where it is corrupt: it means nothing,
// its jump leads out of the code, or its cell is not in use.
pub fn asked(word: u16, size: usize, used: usize) -> Option<Instruction>
    ensures { result ≡ asks size used word }
{
    decode(word).filter(|instruction| is_inside(*instruction, size, used))
}

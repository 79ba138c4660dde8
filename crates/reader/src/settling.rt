// Settling a code: jumps to labels get their addresses from the table of symbols, once none of the refusals stands.
ghost use Rattle.std.specs.Prelude.{◌≡◌, ◌++◌, map, take, drop};
ghost use Rattle.reader.specs.Settling.{settled_by, InUse, Settles, WholeChecked};

use crate::naming::cell_or_address;
use crate::taking::WORDS;
use assembler::word::{Jump, instruction_word};
use fault::{Fault, Refusal};
use machine::word::{low_bits, operation};
use runs::instruction::Instruction;
use symbols::table::Table;

// The jumps to labels that a code has until it is settled.
const ALWAYS: u16 = Jump::Always as u16;

const IF_ZERO: u16 = Jump::IfZero as u16;

// A word of a code: a jump to a label leads to its address, and any other word stays.
fn settled(word: u16, table: &Table<'_, '_, '_>) -> u16
    ensures { result ≡ settled_by table.now word }
{
    let index = low_bits(word);
    match operation(word) {
        ALWAYS => instruction_word(Instruction::Bru(cell_or_address(table, index))),
        IF_ZERO => instruction_word(Instruction::Brz(cell_or_address(table, index))),
        _ => word,
    }
}

// Refusal 12 or 13 of a text that was read: a label that stands before no command, at its earliest mention, or else a code of more
// than 4,096 words. `count` is the reader's count of words.
pub fn check_whole(table: &Table<'_, '_, '_>, count: u16) -> Result<(), Fault>
    ensures { WholeChecked table.now count result }
{
    match table.first_pending() {
        Some(place) => Err(Fault {
            refusal: Refusal::MissingLabel,
            place,
        }),
        None if count > WORDS => Err(Fault {
            refusal: Refusal::LongCode,
            place: 0,
        }),
        None => Ok(()),
    }
}

// The jumps to labels lead to their addresses: each of the first `count` words of a code is settled by the table of symbols.
// Other words stay.
pub fn settle(code: &mut [u16], count: u16, table: &Table<'_, '_, '_>)
    ensures { code.new ≡ map (settled_by table.now) (take count code.old) ++ drop count code.old }
{
    // By its index: of what is written through iter_mut nothing is known behind the loop.
    'words: for index in 0..code.len().min(usize::from(count)) {
        code[index] = settled(code[index], table);
    }
}

// Where the symbol of a jump is in use, the word is settled by what memory holds of the table, whatever stands beyond.
pub fn symbols_in_use_settle()
    ensures { InUse }
{}

// The code in the making of a whole text becomes the code of its program.
pub fn codes_settle()
    ensures { Settles }
{}

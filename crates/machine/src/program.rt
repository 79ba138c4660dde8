// The program of a run: the words that addresses reach, and how many cells are in use. The cells are not its own: callers lend all of
// them and say how many are in use.
ghost use Rattle.std.specs.Prelude.{◌≡◌, ◌≤◌, length, take};
ghost use Rattle.runs.specs.Machine.{fetch as fetched};

use super::word::asked;
use runs::instruction::Instruction;

// No address is above 4,095.
const ADDRESSES: usize = 4_096;

#[derive(Drop)]
pub(crate) struct Program<'c> {
    pub(crate) code: &'c [u16],
    pub(crate) used: usize,
    ghost reach: { length code.now ≤ 4096 },
}

impl<'c> Program<'c> {
    #[tactic(auto, using(std::proofs::lemmas::List::take_min))]
    pub(crate) fn new(code: &'c [u16], used: usize) -> Program<'c>
        ensures code { result.code.now ≡ take 4096 code.now }
        ensures used { result.used ≡ used }
    {
        Program {
            code: &code[..ADDRESSES.min(code.len())],
            used,
        }
    }

    // What the word at an address asks for, or `None` where it is corrupt or outside the code.
    pub(crate) fn fetch(&self, address: u16) -> Option<Instruction>
        ensures { result ≡ fetched self.now.code.now self.now.used address }
    {
        let word = *self.code.get(address as usize)?;
        asked(word, self.code.len(), self.used)
    }
}

// A reader and what it holds.
use assembler::assembler::Assembler;
use reading::counts::Counts;
use reading::returns::Return;
use stack::stack::Stack;

// A text in the making: its code, the states to return to with the current one on top, and what is counted for the limits.
#[derive(Drop)]
pub struct Reader<'c, 'o, 'm, 'r> {
    pub(crate) assembler: Assembler<'c, 'o, 'm>,
    pub(crate) returns: Stack<'r, Return>,
    pub(crate) counts: Counts,
}

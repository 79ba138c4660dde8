// The machine that runs code: what a word of code means, and runs over lent memory, for every host and every arithmetic.
// It is held, step by step, to the machine that the crate `runs` defines. It knows nothing of texts, trees or symbols.
#![tactic(auto)]

mod program;
pub mod registers;
pub mod word;

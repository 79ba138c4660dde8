// The assembler and what it holds.
use assembly::mark::Mark;
use stack::stack::Stack;
use trees::relation::Relation;

// A code in the making. `count` is the number of its words, and stays at 65,535 once it is there; words past the end of the
// code are counted and not written. Operands wait by their cells. `temporaries` counts the temporaries that the expression
// has used. What is kept between two tokens of a command: the cell that LET stores to, the cell or the symbol of the name
// after GO TO, the relation of an IF. Where nothing is kept these are 0, 0 and Greater: no action reads them then, and an Option would be
// taken apart at each action. The code and the two stacks are over memory that the caller lends, so the code is a slice
// with a count beside it and no `Vec`.
#[derive(Drop)]
pub struct Assembler<'c, 'o, 'm> {
    pub(crate) code: &'c mut [u16],
    pub(crate) count: u16,
    pub(crate) operands: Stack<'o, u16>,
    pub(crate) operators: Stack<'m, Mark>,
    pub(crate) temporaries: u16,
    pub(crate) target: u16,
    pub(crate) kept: u16,
    pub(crate) relation: Relation,
}

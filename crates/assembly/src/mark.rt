// What waits in an expression.
use trees::operator::Operator;

// An entry of the operator stack: an open parenthesis, or an operator that waits for its right side. Blank is what the memory that a
// caller lends is filled with where no entry stands, and so a mark and no Option.
#[derive(Clone, Copy, PartialEq, Eq, Debug)]
pub enum Mark {
    Blank,
    Open,
    Pending(Operator),
}

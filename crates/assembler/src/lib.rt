// The assembler: the code of a text in the making, over memory that the caller lends. It carries out the actions of the
// translator's table, one after another, on a code, a stack of operands, a stack of operators and a few numbers.
// It knows the actions, and by the machine the form of a word; it knows nothing of tokens, the grammar, names or limits: a
// name or a number comes to it as a cell or as a symbol's index.
#![tactic(auto)]

pub mod assembler;
pub mod making;
pub mod word;

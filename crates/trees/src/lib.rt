// Programs as trees, for the definitions and theorems of other crates: the trees stand in specs/. There is no code but the
// operators of an expression and the relations of a comparison, which a translator shares with the trees.
#![tactic(auto)]

pub mod operator;
pub mod relation;

// The tokens of a text: what they are, and a lexer that gives them one by one.
// `specs/Lexis.antt` says which tokens a text has, and `specs/Reading.antt` the same as rules that `theorem` shows to come to it.
// A text is any bytes. The crate knows nothing of grammar, symbols or limits: a byte that stands in no program is a token too.
// Of arithmetic it knows the trait, by which a number's digits become a word.
#![tactic(auto)]

pub mod kinds;
pub mod lexer;
pub mod number;
pub mod theorem;
pub mod tokens;
mod words;

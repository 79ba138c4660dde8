// The reader: a text is taken token by token into a code, a table of symbols and a table of returns, over memory that the
// caller lends; it finds the first refusal of 3 to 11 or the whole code of the text. The engine goes by a table of states and
// actions and knows nothing of the notation that the table describes.
#![tactic(auto)]

pub mod counting;
pub mod engine;
pub mod naming;
pub mod reader;
pub mod settling;
pub mod step;
pub mod taking;

// Tokens, and their places in the text.
use crate::kinds::{Keyword, Sign};

// A token. A name and a number are parts of the text.
#[derive(Clone, Copy, PartialEq, Eq, Debug)]
pub enum Token<'t> {
    Name(&'t [u8]),
    Number(&'t [u8]),
    Keyword(Keyword),
    Sign(Sign),
    // A byte that stands in no program.
    Other(u8),
    // The end of the text.
    End,
}

// A token with the offset of its first byte; the end's is the text's length.
#[derive(Clone, Copy, PartialEq, Eq, Debug)]
pub struct Lexeme<'t> {
    pub token: Token<'t>,
    pub offset: usize,
}

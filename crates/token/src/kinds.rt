// The kinds of tokens that carry no bytes of their own.

// A reserved name.
#[derive(Clone, Copy, PartialEq, Eq, Debug)]
pub enum Keyword {
    End,
    Let,
    Go,
    To,
    Of,
    Read,
    Print,
    If,
    Then,
    Else,
}

// A sign, known by its own character; `:=` is the one of two characters.
#[derive(Clone, Copy, PartialEq, Eq, Debug)]
pub enum Sign {
    Semicolon,
    Colon,
    Becomes,
    Plus,
    Minus,
    Times,
    Over,
    Open,
    Close,
    Comma,
    Greater,
    Equal,
    Less,
}

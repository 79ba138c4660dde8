// Tokens that are known by their bytes: reserved names and signs.
ghost use Rattle.std.specs.Prelude.{◌≡◌};
ghost use Rattle.token.specs.Lexis.{reserved, sign_of};

use crate::kinds::{Keyword, Sign};

// The keyword that is spelled so.
pub fn keyword(bytes: &[u8]) -> Option<Keyword>
    ensures { result ≡ reserved bytes.now }
{
    match bytes {
        b"END" => Some(Keyword::End),
        b"LET" => Some(Keyword::Let),
        b"GO" => Some(Keyword::Go),
        b"TO" => Some(Keyword::To),
        b"OF" => Some(Keyword::Of),
        b"READ" => Some(Keyword::Read),
        b"PRINT" => Some(Keyword::Print),
        b"IF" => Some(Keyword::If),
        b"THEN" => Some(Keyword::Then),
        b"ELSE" => Some(Keyword::Else),
        _ => None,
    }
}

// The sign that a byte is.
pub fn sign(b: u8) -> Option<Sign>
    ensures { result ≡ sign_of b }
{
    match b as char {
        ';' => Some(Sign::Semicolon),
        ':' => Some(Sign::Colon),
        '+' => Some(Sign::Plus),
        '-' => Some(Sign::Minus),
        '*' => Some(Sign::Times),
        '/' => Some(Sign::Over),
        '(' => Some(Sign::Open),
        ')' => Some(Sign::Close),
        ',' => Some(Sign::Comma),
        '>' => Some(Sign::Greater),
        '=' => Some(Sign::Equal),
        '<' => Some(Sign::Less),
        _ => None,
    }
}

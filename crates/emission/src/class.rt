// The classes of tokens: names 0, numbers 1, keywords from 2, signs from 12, other bytes and the end 25.
ghost use Rattle.std.specs.Prelude.{◌≡◌};
ghost use Rattle.token.specs.Views.{meant};
ghost use Rattle.emission.specs.Classes.{class_or_end};

use token::tokens::Token;

// The class of a token, the number of its column in the table. Keywords and signs follow one another in the order in which
// their kinds list them; the other tokens are no plain enum, so that their columns are written out.
pub fn class(token: Token<'_>) -> usize
    ensures { result ≡ class_or_end (meant token.entry) }
{
    match token {
        Token::Name(_) => 0,
        Token::Number(_) => 1,
        Token::Keyword(keyword) => 2 + keyword as usize,
        Token::Sign(sign) => 12 + sign as usize,
        Token::Other(_) | Token::End => 25,
    }
}

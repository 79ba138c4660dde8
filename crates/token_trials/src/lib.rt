// The lexer as its callers meet it: a function that is proved from the lexer's contract alone, and tables of texts with their tokens.
#![tactic(auto)]

ghost use Rattle.std.specs.Prelude.{◌≡◌, length};
ghost use Rattle.token.specs.Lexis.{tokens};

use token::lexer::Lexer;
use token::tokens::Token;

#[cfg(test)]
mod tests;

// How many tokens a text has.
pub fn count(text: &[u8]) -> usize
    ensures { result ≡ length (tokens text.now) }
{
    let mut lexer = Lexer::new(text);
    let mut n = 0;
    while lexer.next().token != Token::End {
        n += 1;
    }
    n
}

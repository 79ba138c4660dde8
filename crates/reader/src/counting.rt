// Counting for the limits of expressions, of nesting and of lists, and tests of a token.
ghost use Rattle.std.specs.Prelude.{◌≡◌, ℕ, false, List};
ghost use Rattle.std.specs.Result.{result_err};
ghost use Rattle.token.specs.Tokens.{name as named, keyword as reserved, sign as signed};
ghost use Rattle.token.specs.Views.{meant};
ghost use Rattle.reading.specs.Counting.{counts, counted, form_refusal};
ghost use Rattle.reader.specs.Tokens.{counted_by, form_refusal_by, is_of, is_end};

use fault::Refusal;
use reading::counts::Counts;
use token::kinds::{Keyword, Sign};
use token::tokens::Token;

// The most operators of a whole expression, the deepest nesting of parentheses and of IFs, and the most labels after OF.
const OPERATORS: u16 = 64;

const DEPTH: u16 = 32;

const IFS: usize = 32;

const LABELS: u16 = 64;

// Before the first token.
pub fn no_counts() -> Counts
    ensures { result ≡ counts 0 0 0 }
{
    Counts::default()
}

// After a sign: operators and open parentheses count, and any other sign ends an expression.
fn after_sign(counts: Counts, sign: Sign) -> Counts
    ensures { result ≡ counted (signed sign) counts }
{
    match sign {
        Sign::Plus | Sign::Minus | Sign::Times | Sign::Over => Counts {
            operators: counts.operators.saturating_add(1),
            ..counts
        },
        Sign::Open => Counts {
            depth: counts.depth.saturating_add(1),
            ..counts
        },
        Sign::Close => Counts {
            depth: counts.depth.saturating_sub(1),
            ..counts
        },
        _ => Counts {
            operators: 0,
            depth: 0,
            ..counts
        },
    }
}

// The counts after one token more.
pub fn after_token(counts: Counts, token: Token<'_>) -> Counts
    ensures { result ≡ counted_by (meant token.entry) counts }
{
    match token {
        Token::Name(_) => Counts {
            names: counts.names.saturating_add(1),
            ..counts
        },
        Token::Keyword(_) => no_counts(),
        Token::Sign(sign) => after_sign(counts, sign),
        Token::Other(_) => Counts {
            operators: 0,
            depth: 0,
            ..counts
        },
        Token::Number(_) | Token::End => counts,
    }
}

// Refuses with 9 or 10 at a sign.
fn check_sign(counts: Counts, sign: Sign) -> Result<(), Refusal>
    ensures { (ifs : ℕ) → result_err result ≡ form_refusal counts ifs false (signed sign) }
{
    match sign {
        Sign::Plus | Sign::Minus | Sign::Times | Sign::Over if counts.operators >= OPERATORS => {
            Err(Refusal::TooManyOperators)
        }
        Sign::Open if counts.depth >= DEPTH => Err(Refusal::TooDeep),
        _ => Ok(()),
    }
}

// Refuses with 10 at a keyword, inside so many IFs.
fn check_keyword(ifs: usize, keyword: Keyword) -> Result<(), Refusal>
    ensures { (counts : Counts) → result_err result ≡ form_refusal counts ifs false (reserved keyword) }
{
    if keyword == Keyword::If && ifs >= IFS {
        return Err(Refusal::TooDeep);
    }
    Ok(())
}

// Refuses with 11 at a name.
fn check_name(counts: Counts, listed: bool) -> Result<(), Refusal>
    ensures { (ifs : ℕ) (n : List ℕ) → result_err result ≡ form_refusal counts ifs listed (named n) }
{
    if listed && counts.names >= LABELS {
        return Err(Refusal::TooManyTargets);
    }
    Ok(())
}

// Refuses with 9 to 11 at a token, inside so many IFs; `listed` says that a name is a label in a list after OF.
pub fn check_form(counts: Counts, ifs: usize, listed: bool, token: Token<'_>) -> Result<(), Refusal>
    ensures { result_err result ≡ form_refusal_by counts ifs listed (meant token.entry) }
{
    match token {
        Token::Name(_) => check_name(counts, listed),
        Token::Keyword(keyword) => check_keyword(ifs, keyword),
        Token::Sign(sign) => check_sign(counts, sign),
        Token::Number(_) | Token::Other(_) | Token::End => Ok(()),
    }
}

// Whether a token is OF.
pub fn is_of(token: Token<'_>) -> bool
    ensures { result ≡ is_of (meant token.entry) }
{
    matches!(token, Token::Keyword(Keyword::Of))
}

// Whether it is the end of the text.
pub fn is_end(token: Token<'_>) -> bool
    ensures { result ≡ is_end (meant token.entry) }
{
    matches!(token, Token::End)
}

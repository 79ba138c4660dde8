// The word of a number.
ghost use Rattle.std.specs.Prelude.{◌≡◌, ◌-◌, pos, ◌+ℤ◌, ◌*ℤ◌, if◌then◌else◌, Some, None};
ghost use Rattle.token.specs.Lexis.{digit};
ghost use Rattle.token.specs.Numbers.{word_if_digits};

use arithmetic::Arithmetic;

// The number that digits write, as a word: fitted after each digit, which comes to the same as fitting the whole.
// `None` if some byte is no digit.
pub fn number_word<N: Arithmetic>(digits: &[u8]) -> Option<i32>
    ensures { result ≡ word_if_digits N.Arithmetic.words digits.now }
{
    let mut word = 0;
    for b in digits {
        word = append::<N>(word, digit_value(*b)?);
    }
    Some(word)
}

// One digit more after a word.
fn append<N: Arithmetic>(word: i32, d: u8) -> i32
    ensures { result ≡ N.Arithmetic.words.fit ((pos 10 *ℤ word) +ℤ pos d) }
{
    N::fit(10 * word as i64 + d as i64)
}

// The value of a digit. The library's `to_digit` is of characters and answers 32 bits, which would be taken back to a byte.
fn digit_value(b: u8) -> Option<u8>
    ensures { result ≡ (if digit b then Some (b - 48) else None) }
{
    match b {
        b'0'..=b'9' => Some(b - b'0'),
        _ => None,
    }
}

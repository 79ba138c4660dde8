// Reading lines one by one.
ghost use Rattle.std.specs.Prelude.{◌≡◌, ◌+◌, ◌<◌, ◌≤◌, Bool, true, false, ◌∷◌, length, drop};
ghost use Rattle.lines.specs.Reading.{Start, Digits, lawful_from, signed, numbers, lines_of};
ghost use Rattle.lines.specs.Readers.{to_read, LineRead};

use super::check;
use super::reader::Reader;

// The number that the digits at the beginning of these lines write, and how many bytes they take with the byte 10 behind them.
#[tactic(auto, using(crate::proofs::Steps::digit_steps))]
fn read_digits(lines: &[u8]) -> (u64, usize)
    requires { lawful_from (Digits 0) lines.now ≡ true }
    ensures short { result.0 < 1000000000000000000 }
    ensures within { result.1 ≤ length lines.now }
    ensures lawful { lawful_from Start (drop result.1 lines.now) ≡ true }
    ensures value { (minus : Bool) → numbers minus 0 lines.now ≡ signed minus result.0 ∷ numbers false 0 (drop result.1 lines.now) }
{
    let mut value = 0u64;
    for (i, byte) in lines.iter().enumerate() {
        if *byte == b'\n' {
            return (value, i + 1);
        }
        value = value * 10 + (*byte - b'0') as u64;
    }
    unreachable!()
}

impl<'t> Reader<'t> {
    // All lines of a lawful text are to be read, and no line of an unlawful one.
    pub fn new(text: &'t [u8]) -> Reader<'t>
        ensures lines { to_read result ≡ lines_of text.now }
        ensures lent { result.text ≡ text.entry }
    {
        let at = if check(text).is_ok() { 0 } else { text.len() };
        Reader { text, at }
    }

    // The next line, or `None` where there is none, and then nothing changes.
    pub fn next(&mut self) -> Option<i64>
        ensures line { LineRead (to_read self.old) result (to_read self.new) }
        ensures lent { self.new.text ≡ self.old.text }
    {
        let minus = *self.text.get(self.at)? == b'-';
        let start = self.at + usize::from(minus);
        let (value, length) = read_digits(&self.text[start..]);
        self.at = start + length;
        let value = value as i64;
        Some(if minus { -value } else { value })
    }
}

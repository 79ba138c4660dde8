// Numbers as plain decimals in lent bytes: how long one is, and how it is written. It knows nothing of hosts.
#![tactic(auto)]

ghost use Rattle.std.specs.Prelude.{◌≡◌, ◌+◌, ◌-◌, ◌<◌, ◌≤◌, length, is_ok, nat_le};
ghost use Rattle.decimal.specs.Digits.{decimal, signed, last_digits, written};

// How many digits a number has; 0 has one.
#[tactic(auto, using(crate::proofs::Lasts::one_digit, crate::proofs::Lasts::digits_between))]
fn digits(n: u32) -> usize
    ensures value { result ≡ length (decimal n) }
    ensures bound { (1 ≤ result) × (result ≤ 10) }
{
    // One digit is told without a logarithm, which takes longer.
    if n < 10 { 1 } else { n.ilog10() as usize + 1 }
}

// The same by ranges, for `write`: its loop is then made for each length, and takes less time than where a logarithm tells it.
fn digits_by_range(n: u32) -> usize
    ensures value { result ≡ length (decimal n) }
    ensures bound { (1 ≤ result) × (result ≤ 10) }
{
    match n {
        0..=9 => 1,
        10..=99 => 2,
        100..=999 => 3,
        1_000..=9_999 => 4,
        10_000..=99_999 => 5,
        100_000..=999_999 => 6,
        1_000_000..=9_999_999 => 7,
        10_000_000..=99_999_999 => 8,
        100_000_000..=999_999_999 => 9,
        _ => 10,
    }
}

// How many bytes a number takes in plain decimals.
pub fn width(n: i32) -> usize
    ensures value { result ≡ length (signed n) }
    ensures bound { (1 ≤ result) × (result ≤ 11) }
{
    let digits = digits(n.unsigned_abs());
    if n < 0 { digits + 1 } else { digits }
}

// The same by ranges, for `write`.
fn width_by_range(n: i32) -> usize
    ensures value { result ≡ length (signed n) }
    ensures bound { (1 ≤ result) × (result ≤ 11) }
{
    digits_by_range(n.unsigned_abs()) + usize::from(n < 0)
}

// Fills bytes with the last digits of a number, as many as there are bytes.
#[tactic(auto, using(crate::proofs::Writes::turn))]
fn write_digits(out: &mut [u8], mut n: u32)
    ensures { out.new ≡ last_digits (length out.old) n }
{
    // By places: of what `iter_mut().rev()` has written, nothing is known once it is over.
    for place in (0..out.len()).rev() {
        out[place] = b'0' + (n % 10) as u8;
        n /= 10;
    }
}

// The bytes from a place on are too few for a number.
#[derive(Clone, Copy, PartialEq, Eq, Debug)]
pub struct NoRoom;

// Writes a number from `start` on, where it fits; else nothing changes. The place is a parameter,
// since the contract says what the whole list holds afterwards.
#[tactic(auto, using(crate::proofs::Writes::written_by_sign))]
pub fn write(out: &mut [u8], start: usize, n: i32) -> Result<(), NoRoom>
    ensures fits { is_ok result ≡ nat_le (start + length (signed n)) (length out.old) }
    ensures after { out.new ≡ written out.old start (signed n) }
{
    let width = width_by_range(n);
    if out.len().saturating_sub(start) < width {
        return Err(NoRoom);
    }
    if n < 0 {
        out[start] = b'-';
        write_digits(&mut out[start + 1..start + width], n.unsigned_abs());
    } else {
        write_digits(&mut out[start..start + width], n.unsigned_abs());
    }
    Ok(())
}

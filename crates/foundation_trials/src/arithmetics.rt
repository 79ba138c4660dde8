// The extremes of the two arithmetics.
use arithmetic::Arithmetic;
use arithmetic::ledger::Ledger;
use arithmetic::operations::{difference, product, quotient, sum};
use arithmetic::wrapped::Wrapped;
use std::test::Fail;

const LOW: i32 = i32::MIN;

const HIGH: i32 = i32::MAX;

// Each pair is what came out, and what should.
fn all_equal(pairs: &[(i32, i32)]) -> Result<(), Fail> {
    for (got, want) in pairs {
        if *got != *want {
            return Err(Fail::new("another word"));
        }
    }
    Ok(())
}

#[test]
fn wrapped_words() -> Result<(), Fail> {
    all_equal(&[
        (Wrapped::LOWEST, LOW),
        (Wrapped::HIGHEST, HIGH),
        (Wrapped::low(), -2_147_483_648),
        (Wrapped::high(), 2_147_483_647),
        (sum::<Wrapped>(HIGH, 1), LOW),
        (difference::<Wrapped>(LOW, 1), HIGH),
        (product::<Wrapped>(65_536, 65_536), 0),
        (product::<Wrapped>(LOW, -1), LOW),
        (quotient::<Wrapped>(LOW, -1), LOW),
        (Wrapped::fit(999_999_999_999_999_999), -1_486_618_625),
        (Wrapped::fit(-999_999_999_999_999_999), 1_486_618_625),
    ])
}

#[test]
fn ledger_words() -> Result<(), Fail> {
    all_equal(&[
        (Ledger::LOWEST, -99_999_999),
        (Ledger::HIGHEST, 99_999_999),
        (Ledger::low(), -99_999_999),
        (Ledger::high(), 99_999_999),
        (sum::<Ledger>(99_999_999, 1), 99_999_999),
        (sum::<Ledger>(99_999_998, 1), 99_999_999),
        (difference::<Ledger>(-99_999_999, 1), -99_999_999),
        (product::<Ledger>(10_000, -10_000), -99_999_999),
        (product::<Ledger>(9_999, 10_001), 99_999_999),
        (quotient::<Ledger>(99_999_999, -1), -99_999_999),
        (Ledger::fit(999_999_999_999_999_999), 99_999_999),
    ])
}

#[test]
fn quotients() -> Result<(), Fail> {
    all_equal(&[
        (quotient::<Wrapped>(5, 0), 5),
        (quotient::<Ledger>(5, 0), 5),
        (quotient::<Ledger>(-5, 0), -5),
        (quotient::<Wrapped>(difference::<Wrapped>(0, 7), 2), -3),
        (quotient::<Ledger>(7, -2), -3),
        (quotient::<Ledger>(-7, -2), 3),
        (quotient::<Ledger>(0, 9), 0),
    ])
}

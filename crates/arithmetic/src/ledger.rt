// The ledger word: eight digits and a sign. It stops at its bounds.
ghost use Rattle.std.specs.Prelude.{pos, negsuc, refl};
ghost use Rattle.arithmetic.specs.Stopping.{stopping};
ghost use Rattle.arithmetic.specs.Stops.{stopping_lawful};

use super::Arithmetic;

pub struct Ledger;

impl Arithmetic for Ledger {
    const LOWEST: i32 = -99_999_999;

    const HIGHEST: i32 = 99_999_999;

    ghost LOWEST = { negsuc 99999998 };

    ghost HIGHEST = { pos 99999999 };

    ghost words = { stopping };

    ghost bounds = { (refl, refl) };

    ghost lawful = { stopping_lawful };

    fn fit(n: i64) -> i32 {
        n.clamp(Self::LOWEST as i64, Self::HIGHEST as i64) as i32
    }
}

// The wrapped word: the low 32 bits of a number, signed.
ghost use Rattle.std.specs.Prelude.{pos, negsuc, refl};
ghost use Rattle.arithmetic.specs.Wrapping.{wrapping};
ghost use Rattle.arithmetic.specs.Wraps.{wrapping_lawful};

use super::Arithmetic;

pub struct Wrapped;

impl Arithmetic for Wrapped {
    const LOWEST: i32 = i32::MIN;

    const HIGHEST: i32 = i32::MAX;

    ghost LOWEST = { negsuc 2147483647 };

    ghost HIGHEST = { pos 2147483647 };

    ghost words = { wrapping };

    ghost bounds = { (refl, refl) };

    ghost lawful = { wrapping_lawful };

    fn fit(n: i64) -> i32 {
        // The low 32 bits and no more, on purpose.
        ((n.cast_unsigned() & 0xffff_ffff) as u32).cast_signed()
    }
}

// Sum, difference, product and quotient of words, written once for every arithmetic.
// The exact result of two numbers of 32 bits fits 64 bits, so nothing is lost before it is fitted.
ghost use Rattle.std.specs.Prelude.{◌≡◌};
ghost use Rattle.arithmetic.specs.Words.{sum as sum_of, difference as difference_of, product as product_of, quotient as quotient_of};

use super::Arithmetic;

// The word of an exact result: itself between the bounds, else what it is fitted to.
fn settle<N: Arithmetic>(exact: i64) -> i32
    ensures { result ≡ N.Arithmetic.words.fit exact }
{
    if N::LOWEST as i64 <= exact && exact <= N::HIGHEST as i64 {
        exact as i32
    } else {
        N::fit(exact)
    }
}

// Four functions and not one over an operation: each has its own exact result and its own rule, and a quotient's is by cases.
// Their two words stay two parameters: an operation has two sides.
pub fn sum<N: Arithmetic>(a: i32, b: i32) -> i32
    ensures { result ≡ sum_of N.Arithmetic.words a b }
{
    settle::<N>(a as i64 + b as i64)
}

pub fn difference<N: Arithmetic>(a: i32, b: i32) -> i32
    ensures { result ≡ difference_of N.Arithmetic.words a b }
{
    settle::<N>(a as i64 - b as i64)
}

pub fn product<N: Arithmetic>(a: i32, b: i32) -> i32
    ensures { result ≡ product_of N.Arithmetic.words a b }
{
    settle::<N>(a as i64 * b as i64)
}

// Divided by 0, a number stays as it is.
pub fn quotient<N: Arithmetic>(a: i32, b: i32) -> i32
    ensures { result ≡ quotient_of N.Arithmetic.words a b }
{
    if b == 0 {
        return a;
    }
    settle::<N>(a as i64 / b as i64)
}

// Words of arithmetic: the trait by which all other crates know them, the four operations, written once over it,
// and the two arithmetics that come with the part. It knows nothing of hosts, texts or programs.
#![tactic(auto)]

ghost use Rattle.std.specs.Prelude.{◌≡◌, ℤ};
ghost use Rattle.arithmetic.specs.Words.{Words, Lawful};

pub mod ledger;
pub mod operations;
pub mod wrapped;

// An arithmetic: its bounds, and how it fits a whole number to a word between them.
// What it means is the ghost member `words`, and what it owes are the laws `bounds` and `lawful`.
pub trait Arithmetic {
    // The lowest word, and the highest.
    const LOWEST: i32;

    const HIGHEST: i32;

    ghost LOWEST: { ℤ };

    ghost HIGHEST: { ℤ };

    ghost words: { Words };

    // The two constants once more, by functions: that a constant is the bound of `words` is a law to cite, and here it is a clause.
    // A type may write its own in their place.
    fn low() -> i32
        ensures { result ≡ words.lowest }
    {
        Self::LOWEST
    }

    fn high() -> i32
        ensures { result ≡ words.highest }
    {
        Self::HIGHEST
    }

    // The word that a number is fitted to.
    fn fit(n: i64) -> i32
        ensures { result ≡ words.fit n };

    // The two constants are the bounds of the words.
    ghost bounds: { (LOWEST ≡ words.lowest) × (HIGHEST ≡ words.highest) };

    ghost lawful: { Lawful words };
}

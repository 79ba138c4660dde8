// Hosts: what supplies input lines and takes printed marks. The trait by which all other crates know them, and the two
// that come with the part. It knows nothing of words of arithmetic, of texts of programs or of machines.
#![tactic(auto)]

ghost use Rattle.std.specs.Prelude.{◌≡◌, ℕ, is_ok};
ghost use Rattle.host.specs.Meaning.{Meaning, Mark as Printed, number, line_end, first, taken, fits, marked, ShortLines, Light};

pub mod mark;
pub mod tray;
pub mod tray_host;

use mark::Mark;

// The answer of a host whose paper does not suffice for a mark.
#[derive(Clone, Copy, PartialEq, Eq, Debug)]
pub struct NoPaper;

// A host. What it means is the ghost member `meaning`: the lines that wait, the marks that stand printed, the paper left.
// A host of your own gives the three ghost members above the methods, proves each method against the clauses here, and
// each of the four laws below them.
pub trait Host {
    ghost meaning: { Self → Meaning };

    // The weight of each mark, fixed for the type of host.
    ghost weight: { Printed → ℕ };

    // What calls keep of the host and of the memory that it is lent, from one state to a later one: by this the lender
    // learns what its memory holds once the host is gone.
    ghost keeps: { Self → Self → Type 0 };

    // Answers a mark's weight.
    fn weigh(&self, mark: Mark) -> u8
        ensures { result ≡ weight mark };

    // Answers the first waiting line and removes it, or `None` where no line waits, and then nothing changes.
    fn take(&mut self) -> Option<i64>
        ensures line { result ≡ first (meaning self.old).lines }
        ensures after { meaning self.new ≡ taken (meaning self.old) }
        ensures kept { keeps self.old self.new };

    // Prints a number, or refuses where its weight exceeds the paper, and then nothing changes. `put` and
    // `close` are two methods and not one over a mark: by these names a host is known and called.
    fn put(&mut self, word: i32) -> Result<(), NoPaper>
        ensures room { is_ok result ≡ fits (weight (number word)) (meaning self.old) }
        ensures after { meaning self.new ≡ marked (weight (number word)) (number word) (meaning self.old) }
        ensures kept { keeps self.old self.new };

    // Prints a line end, or refuses where its weight exceeds the paper, and then nothing changes.
    fn close(&mut self) -> Result<(), NoPaper>
        ensures room { is_ok result ≡ fits (weight line_end) (meaning self.old) }
        ensures after { meaning self.new ≡ marked (weight line_end) line_end (meaning self.old) }
        ensures kept { keeps self.old self.new };

    // A mark weighs from 1 to 11.
    ghost light: { Light weight };

    // A waiting line has at most 18 digits.
    ghost short: { (h : Self) → ShortLines (meaning h).lines };

    // `keeps` holds where no call is made, and of calls in a row.
    ghost still: { (a : Self) → keeps a a };

    ghost along: { (a b c : Self) → keeps a b → keeps b c → keeps a c };
}

// Running totals of a host's lines: one task, written once for every host and every arithmetic.
#![tactic(auto)]

ghost use Rattle.std.specs.Prelude.{◌≡◌, is_ok};
ghost use Rattle.totals.specs.Running.{Tallied};
ghost use Rattle.totals.specs.Lines.{line_fits, with_line};

use arithmetic::Arithmetic;
use arithmetic::operations::sum;
use host::{Host, NoPaper};

// How many lines were taken, their total, and whether there was paper for every running total.
// The count and the total mean the same either way, so whether all is printed is told beside them.
#[derive(Clone, Copy, PartialEq, Eq, Debug)]
pub struct Totals {
    pub lines: usize,
    pub total: i32,
    pub complete: bool,
}

// Prints a number and a line end behind it, as far as the paper goes.
fn print_line<H: Host>(host: &mut H, word: i32) -> Result<(), NoPaper>
    ensures room { is_ok result ≡ line_fits H.Host.weight word (H.Host.meaning host.old) }
    ensures after { H.Host.meaning host.new ≡ with_line H.Host.weight word (H.Host.meaning host.old) }
    ensures kept { H.Host.keeps host.old host.new }
{
    host.put(word)?;
    host.close()
}

// Takes at most `most` lines. After each it prints the total so far, and a line end, until the paper does not suffice.
pub fn run<H: Host, N: Arithmetic>(host: &mut H, most: usize) -> Totals
    ensures tallied { Tallied N.Arithmetic.words H.Host.weight most (H.Host.meaning host.old) result (H.Host.meaning host.new) }
    ensures kept { H.Host.keeps host.old host.new }
{
    let mut totals = Totals {
        lines: 0,
        total: 0,
        complete: true,
    };
    for _ in 0..most {
        let Some(line) = host.take() else {
            break;
        };
        totals.lines += 1;
        totals.total = sum::<N>(totals.total, N::fit(line));
        if print_line(host, totals.total).is_err() {
            totals.complete = false;
            break;
        }
    }
    totals
}

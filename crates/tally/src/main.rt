// tally: reads a delivery note from standard input, one whole number a line, and prints each running total in ledger
// words, and at last the count of lines and the total. A note that breaks the form is refused with the place of the break.
#![tactic(auto)]

use arithmetic::ledger::Ledger;
use std::alloc::Global;
use std::io::{Read, Write};
use text_host::text::TextHost;
use totals::Totals;

// A ledger word and its line end take at most this many bytes.
const LINE: usize = 10;

// The totals of a lawful note of `count` lines, printed as text.
fn print_totals(rt: &HostRuntime, heap: Global, note: &[u8], count: usize) -> anyhow::Result<()> {
    let room = count.saturating_mul(LINE);
    let mut output = vec![in heap; 0u8; room]?;
    let mut lengths = vec![in heap; 0u8; room]?;
    let mut host = TextHost::new(note, output.as_mut_slice(), lengths.as_mut_slice());
    let Totals {
        lines,
        total,
        complete,
    } = totals::run::<TextHost, Ledger>(&mut host, count);
    rt.stdout().write_all(host.printed())?;
    if complete {
        println!(rt; "{lines} lines, total {total}")?;
    } else {
        println!(rt; "no paper after {lines} lines, total {total}")?;
    }
    Ok(())
}

fn main(rt: HostRuntime) -> anyhow::Result<()> {
    let heap = rt.alloc();
    let mut note = Vec::new(heap);
    rt.stdin().read_to_end(&mut note)?;
    match lines::check(note.as_slice()) {
        Ok(count) => print_totals(&rt, heap, note.as_slice(), count)?,
        Err(fault) => println!(rt; "{fault}")?,
    }
    Ok(())
}

// note_vectors: reads outside cases of delivery notes from standard input and compares the check's answer with theirs.
// A case is `case NAME`, `text N` and N bytes, `check M` and M bytes: `lines COUNT` or the fault.
#![tactic(auto)]

ghost use Rattle.std.specs.Prelude.{◌<◌, length, IfSome};

use anyhow::Context;
use std::alloc::{AllocError, Global};
use std::io::Read;
use vectors::{split_line, split_payload};

// The length that a line announces, as `text 12` does after the word `text`.
fn announced(line: &[u8], word: &[u8]) -> Option<usize> {
    let (_space, digits) = line.strip_prefix(word)?.split_first()?;
    digits.iter().try_fold(0usize, |length, byte| {
        let digit = char::from(*byte).to_digit(10)?;
        length.checked_mul(10)?.checked_add(digit as usize)
    })
}

// A payload that a line announces, and what follows it, which is shorter than the text.
fn field<'a>(text: &'a [u8], word: &[u8]) -> Option<(&'a [u8], &'a [u8])>
    ensures { IfSome result (λ parts. length parts.1.now < length text.now) }
{
    let (line, rest) = split_line(text)?;
    let length = announced(line, word)?;
    split_payload(rest, length)
}

// What the check says of a note, as the cases have it.
fn answer(heap: Global, note: &[u8]) -> Result<String, AllocError> {
    match lines::check(note) {
        Ok(count) => format!(in heap; "lines {count}"),
        Err(fault) => format!(in heap; "{fault}"),
    }
}

fn main(rt: HostRuntime) -> anyhow::Result<()> {
    let heap = rt.alloc();
    let mut file = Vec::new(heap);
    rt.stdin().read_to_end(&mut file)?;
    let mut rest = file.as_slice();
    let mut cases = 0usize;
    let mut differ = 0usize;
    while let Some((_name, after)) = split_line(rest) {
        let (note, tail) = field(after, b"text").context("a case without its text")?;
        let (wanted, next) = field(tail, b"check").context("a case without its answer")?;
        if answer(heap, note)?.as_bytes() != wanted {
            differ = differ.saturating_add(1);
        }
        cases = cases.saturating_add(1);
        rest = next;
    }
    println!(rt; "{cases} notes, {differ} differ")?;
    Ok(())
}

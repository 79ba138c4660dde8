// The text host: input lines as text, output as plain decimals. It knows a host by the trait alone.
#![tactic(auto)]

ghost use Rattle.std.specs.Prelude.{◌≡◌, ◌+◌, ◌≤◌, min, [], length, is_ok};
ghost use Rattle.decimal.specs.Digits.{overwritten};
ghost use Rattle.host.specs.Meaning.{meaning, Printable, fits, marked};
ghost use Rattle.lines.specs.Reading.{lines_of};
ghost use Rattle.text_host.specs.Rendering.{byte_weight, rendered, mark_bytes};
ghost use Rattle.text_host.specs.Texts.{text_meaning, text_short, TextKeeps, text_still, text_along, text_light};

pub mod text;

use host::mark::Mark;
use host::{Host, NoPaper};
use lines::reader::Reader;
use text::TextHost;

impl<'i, 'o, 'l> TextHost<'i, 'o, 'l> {
    // A new host: the lines of the input wait, none where it is unlawful, and nothing is printed.
    pub fn new(input: &'i [u8], output: &'o mut [u8], lengths: &'l mut [u8]) -> TextHost<'i, 'o, 'l>
        ensures meaning { text_meaning result ≡ meaning (lines_of input.now) [] (min (length output.old) (length lengths.old)) }
        ensures input { result.input.text ≡ input.entry }
        ensures output_lent { result.output.ghost_name ≡ output.entry.ghost_name }
        ensures output { result.output.now ≡ output.old }
        ensures written { result.written ≡ 0 }
        ensures lengths_lent { result.lengths.ghost_name ≡ lengths.entry.ghost_name }
        ensures lengths { result.lengths.now ≡ lengths.old }
        ensures count { result.count ≡ 0 }
    {
        TextHost {
            input: Reader::new(input),
            output,
            written: 0,
            lengths,
            count: 0,
        }
    }

    // The paper that is left.
    pub fn paper(&self) -> usize
        ensures { result ≡ (text_meaning self.now).paper }
    {
        self.output.len().min(self.lengths.len()) - self.written
    }

    // What is printed, as text: bytes here and marks in a tray, so that each host has its own.
    pub fn printed(&self) -> &[u8]
        ensures { result.now ≡ rendered (text_meaning self.now).marks }
    {
        &self.output[..self.written]
    }

    // Prints a mark behind those that are printed.
    fn print(&mut self, mark: Mark) -> Result<(), NoPaper>
        requires { Printable mark }
        ensures room { is_ok result ≡ fits (byte_weight mark) (text_meaning self.old) }
        ensures after { text_meaning self.new ≡ marked (byte_weight mark) mark (text_meaning self.old) }
        ensures kept { TextKeeps self.old self.new }
    {
        let weight = self.weigh(mark);
        if usize::from(weight) > self.paper() {
            return Err(NoPaper);
        }
        write(self.output, self.written, mark);
        self.lengths[self.count] = weight;
        self.count += 1;
        self.written += usize::from(weight);
        Ok(())
    }
}

// Writes a mark's bytes from `start` on, where there is room for them; the contract says what the whole list holds afterwards.
fn write(out: &mut [u8], start: usize, mark: Mark)
    requires { start + byte_weight mark ≤ length out.old }
    ensures { out.new ≡ overwritten out.old start (mark_bytes mark) }
{
    match mark {
        Mark::Number(word) => {
            let _ = decimal::write(out, start, word);
        }
        Mark::LineEnd => out[start] = b'\n',
    }
}

impl Host for TextHost<'_, '_, '_> {
    ghost meaning = { text_meaning };

    ghost weight = { byte_weight };

    ghost keeps = { TextKeeps };

    ghost light = { text_light };

    ghost short = { text_short };

    ghost still = { text_still };

    ghost along = { text_along };

    fn weigh(&self, mark: Mark) -> u8 {
        match mark {
            Mark::Number(word) => decimal::width(word) as u8,
            Mark::LineEnd => 1,
        }
    }

    fn take(&mut self) -> Option<i64> {
        self.input.next()
    }

    // Each host has its own `put` and `close` over its `print`: a host is written by the four methods of the trait, and `print` is none of them.
    fn put(&mut self, word: i32) -> Result<(), NoPaper> {
        self.print(Mark::Number(word))
    }

    fn close(&mut self) -> Result<(), NoPaper> {
        self.print(Mark::LineEnd)
    }
}

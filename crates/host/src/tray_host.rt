// A tray as a host.
ghost use Rattle.std.specs.Prelude.{◌≡◌, [], length, is_ok};
ghost use Rattle.host.specs.Meaning.{meaning, short, fits, marked};
ghost use Rattle.host.specs.Trays.{up_to_long, unit_weight, tray_meaning, TrayKeeps, tray_still, tray_along, tray_light, tray_short};

use super::mark::Mark;
use super::tray::Tray;
use super::{Host, NoPaper};

// The first number of more than 18 digits.
const LONG: u64 = 1_000_000_000_000_000_000;

fn is_short(line: i64) -> bool
    ensures { result ≡ short line }
{
    line.unsigned_abs() < LONG
}

impl<'n, 'm> Tray<'n, 'm> {
    // A new tray: all numbers wait, up to the first of more than 18 digits, and nothing is printed.
    pub fn new(numbers: &'n [i64], marks: &'m mut [Mark]) -> Tray<'n, 'm>
        ensures meaning { tray_meaning result ≡ meaning (up_to_long numbers.now) [] (length marks.old) }
        ensures numbers { result.numbers ≡ numbers.entry }
        ensures marks_lent { result.marks.ghost_name ≡ marks.entry.ghost_name }
        ensures marks { result.marks.now ≡ marks.old }
        ensures next { result.next ≡ 0 }
        ensures count { result.count ≡ 0 }
    {
        Tray {
            numbers,
            next: 0,
            marks,
            count: 0,
        }
    }

    // The marks that are printed, in order.
    pub fn printed(&self) -> &[Mark]
        ensures { result.now ≡ (tray_meaning self.now).marks }
    {
        &self.marks[..self.count]
    }

    // Puts a mark behind those that are printed. A tray holds a plain list and no `Stack`: marks are read first to last and
    // never taken off.
    fn print(&mut self, mark: Mark) -> Result<(), NoPaper>
        ensures room { is_ok result ≡ fits 1 (tray_meaning self.old) }
        ensures after { tray_meaning self.new ≡ marked 1 mark (tray_meaning self.old) }
        ensures kept { TrayKeeps self.old self.new }
    {
        // Of a place that `get_mut` lends, nothing is known once it is written.
        if self.count >= self.marks.len() {
            return Err(NoPaper);
        }
        self.marks[self.count] = mark;
        self.count += 1;
        Ok(())
    }
}

impl Host for Tray<'_, '_> {
    ghost meaning = { tray_meaning };

    ghost weight = { unit_weight };

    ghost keeps = { TrayKeeps };

    ghost light = { tray_light };

    ghost short = { tray_short };

    ghost still = { tray_still };

    ghost along = { tray_along };

    fn weigh(&self, _mark: Mark) -> u8 {
        1
    }

    fn take(&mut self) -> Option<i64> {
        let line = *self.numbers.get(self.next)?;
        if !is_short(line) {
            return None;
        }
        self.next += 1;
        Some(line)
    }

    // Each host has its own `put` and `close` over its `print`: a host is written by the four methods of the trait, and `print` is none of them.
    fn put(&mut self, word: i32) -> Result<(), NoPaper> {
        self.print(Mark::Number(word))
    }

    fn close(&mut self) -> Result<(), NoPaper> {
        self.print(Mark::LineEnd)
    }
}

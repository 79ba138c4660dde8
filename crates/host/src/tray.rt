// The tray: a host over a list of numbers and a list for marks. What it keeps true stands in its type.
ghost use Rattle.std.specs.Prelude.{◌≤◌, length};

use super::mark::Mark;

// The numbers from `next` on are to be taken; the first `count` marks are printed.
// Both lists are the caller's memory, so a tray owns none of it, and where it stands in each is a number beside it.
#[derive(Drop)]
pub struct Tray<'n, 'm> {
    pub(crate) numbers: &'n [i64],
    pub(crate) next: usize,
    pub(crate) marks: &'m mut [Mark],
    pub(crate) count: usize,
    ghost within: { next ≤ length numbers.now },
    ghost room: { count ≤ length marks.now },
}

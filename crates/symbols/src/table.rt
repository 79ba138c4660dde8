// The table. What it keeps true stands in its type.
ghost use Rattle.std.specs.Prelude.{◌+◌, ◌≤◌, length as size};

use crate::kinds::Symbol;

// A table over lent memory and the text in which names and numbers are spelled.
// The first entries of `symbols` are in use, in the order in which the symbols first appear; there are as many of them as
// symbols with a cell and labels. Variables and numbers have the cells from 66 on, in the same order.
// The lists are the caller's memory, so a table owns none of it, and how much of each is in use stands in numbers beside them.
#[derive(Drop)]
pub struct Table<'s, 'c, 't> {
    pub(crate) symbols: &'s mut [Symbol],
    pub(crate) cells: &'c mut [i32],
    pub(crate) text: &'t [u8],
    pub(crate) celled: u16,
    pub(crate) labels: u16,
    ghost within: { celled + labels ≤ size symbols.now },
    ghost cells_few: { celled ≤ 446 },
    ghost labels_few: { labels ≤ 256 },
}

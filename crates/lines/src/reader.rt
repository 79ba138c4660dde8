// The lines of a text that are still to be read. What it keeps true stands in its type.
ghost use Rattle.std.specs.Prelude.{◌≡◌, ◌≤◌, true, length, drop};
ghost use Rattle.lines.specs.Reading.{Start, lawful_from};

// Those from `at` on are to be read, and they are whole lines.
// It keeps the whole text beside `at`, since `new` and `next` promise that its text stays the one that was lent.
#[derive(Drop)]
pub struct Reader<'t> {
    pub(crate) text: &'t [u8],
    pub(crate) at: usize,
    ghost ok: { (at ≤ length text.now) × (lawful_from Start (drop at text.now) ≡ true) },
}

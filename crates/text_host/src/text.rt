// The text host: a host over lines of text and bytes for output. What it keeps true stands in its type.
ghost use Rattle.std.specs.Prelude.{◌≡◌, ◌≤◌, min, length, take, sum};
ghost use Rattle.text_host.specs.Rendering.{marks_of, rendered};

use lines::reader::Reader;

// The first `written` bytes of the output are printed, in `count` marks, whose lengths stand in `lengths`.
// Both lists are the caller's memory, so a host owns none of it, and how far each is used is a number beside it.
#[derive(Drop)]
pub struct TextHost<'i, 'o, 'l> {
    pub(crate) input: Reader<'i>,
    pub(crate) output: &'o mut [u8],
    pub(crate) written: usize,
    pub(crate) lengths: &'l mut [u8],
    pub(crate) count: usize,
    // There is no more than the shorter of the two lists has room for.
    ghost room: { written ≤ min (length output.now) (length lengths.now) },
    ghost fewer: { count ≤ written },
    // The lengths are those of the marks, and the bytes are their text.
    ghost whole: { sum (take count lengths.now) ≡ written },
    ghost text: { take written output.now ≡ rendered (marks_of (take count lengths.now) output.now) },
}

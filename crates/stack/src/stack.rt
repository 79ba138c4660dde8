// A stack over a lent slice. What it keeps true stands in its type.
ghost use Rattle.std.specs.Prelude.{◌≤◌, length};

// The first `len` items are on the stack, the last of them on top. They stand in memory that the caller lends: a slice with a
// length beside it, and no `Vec`.
#[derive(Drop)]
pub struct Stack<'a, T> {
    pub(crate) items: &'a mut [T],
    pub(crate) len: usize,
    ghost ok: { len ≤ length items.now },
}

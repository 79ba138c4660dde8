// What a host prints.
#[derive(Clone, Copy, PartialEq, Eq, Debug)]
pub enum Mark {
    Number(i32),
    LineEnd,
}

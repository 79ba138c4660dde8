// The relation of a comparison.
#[derive(Clone, Copy, PartialEq, Eq, Debug)]
pub enum Relation {
    Greater,
    Equal,
    Less,
}

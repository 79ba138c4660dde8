// What a reader counts for the limits of expressions and of lists.

// The operators and the open parentheses of the whole expression so far, and the names since the last keyword; none counts past
// 65,535.
#[derive(Clone, Copy, PartialEq, Eq, Debug, Default)]
pub struct Counts {
    pub operators: u16,
    pub depth: u16,
    pub names: u16,
}

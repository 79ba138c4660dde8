// The entries of the return stack.
use emission::state::State;

// A state to return to, and how many words there were when it was put there, or 65,535 for any more. A blank entry is that of
// the first state at no words.
#[derive(Clone, Copy, PartialEq, Eq, Debug)]
pub struct Return {
    pub state: State,
    pub address: u16,
}

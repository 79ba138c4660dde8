// What the state that takes a token does.
use emission::action::Action;
use emission::state::State;

// The address at which the state was entered, its action, and the states that are put on the stack in its place, in this order.
#[derive(Clone, Copy, PartialEq, Eq, Debug)]
pub struct Step {
    pub entered: u16,
    pub action: Action,
    pub states: &'static [State],
}

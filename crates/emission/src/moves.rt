// What the translator does at a token.
use crate::action::Action;
use crate::state::State;

#[derive(Clone, Copy, PartialEq, Eq, Debug)]
pub enum Move {
    // it refuses the token; a case and no Option, since it has a letter in the table as each other move has
    Refuse,
    // it acts and returns to the state below, which the token then meets
    Leave(Action),
    // it acts, and takes the token: these states are put on the stack in place of the current one, in this order
    Take(Action, &'static [State]),
}

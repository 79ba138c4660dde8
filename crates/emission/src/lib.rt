// Emission: the code of a program, made in one pass over its tokens by a table of states and actions. It knows tokens, the
// grammar, the limits, trees and their code.
// What is defined stands in specs/; the functions here carry the theorems about it.
#![tactic(auto)]

ghost use Rattle.emission.specs.Laws.{Addresses, ByAddress, Exact, Follows, Roomy, Stable, Standing, Steps};
ghost use Rattle.emission.specs.Layouts.{Known};
ghost use Rattle.emission.specs.Samples.{Samples};

pub mod action;
pub mod class;
pub mod moves;
pub mod state;
pub mod table;

// The translator ends exactly on programs, and has then made the code of the program's tree.
pub fn emission_is_exact()
    ensures { Exact }
{}

// The translator takes and refuses the same tokens as the recogniser of the grammar.
pub fn emission_follows_recogniser()
    ensures { Follows }
{}

// The stacks need room for the operators, parentheses and IFs that the limits allow, and no more.
pub fn stacks_suffice()
    ensures { Roomy }
{}

// Later tokens leave words and labels as they are, but for the jumps of open IFs, and never take a word away.
pub fn emission_is_stable()
    ensures { Stable }
{}

// A step is what the table's entry for the state and the token says.
pub fn entries_decide()
    ensures { Steps }
{}

// Between two tokens only states to return to stand below the current one, names and numbers are taken by the current state alone, and at
// the start of a command the stack is as deep as IFs are open.
pub fn states_stand()
    ensures { Standing }
{}

// The first definition of a label gives its address, and no other changes it.
pub fn definitions_give_addresses()
    ensures { Addresses }
{}

// The word at an address, as words are added, patched and settled.
pub fn words_have_addresses()
    ensures { ByAddress }
{}

// The cell of a variable or a number is known when it is used, whatever comes after.
pub fn cells_are_known_at_use()
    ensures { Known }
{}

// Small texts, put into code.
pub fn samples_hold()
    ensures { Samples }
{}

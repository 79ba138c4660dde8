// The grammar: which lists of tokens are programs, and of which tree. It knows tokens and trees and nothing else.
// What is defined stands in specs/; the functions here carry the theorems about it.
#![tactic(auto)]

ghost use Rattle.grammar.specs.Laws.{OneReading, Parser, Exact, Viable, OneFault, Steps};

pub mod state;

// A list of tokens reads as one tree at most.
pub fn one_reading_holds()
    ensures { OneReading }
{}

// `parse` finds the tree of the tokens, if they have one.
pub fn parser_is_exact()
    ensures { Parser }
{}

// The recogniser accepts exactly the programs.
pub fn recogniser_is_exact()
    ensures { Exact }
{}

// The recogniser stops at the first token with which no program begins.
pub fn recogniser_is_viable()
    ensures { Viable }
{}

// Tokens are a program or have one first fault, and `first_fault` says where.
pub fn one_fault_holds()
    ensures { OneFault }
{}

// The recogniser finds the first fault step by step.
pub fn steps_find_the_fault()
    ensures { Steps }
{}

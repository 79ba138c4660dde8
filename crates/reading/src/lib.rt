// Reading a text: what a translator holds after some of the tokens, by the definitions, and what one token more makes of it.
// It holds no running code; what is defined stands in specs/, and the functions here carry the theorems about it.
#![tactic(auto)]

ghost use Rattle.reading.specs.Laws.{Stays, Placed, Resolves};
ghost use Rattle.reading.specs.StepLaws.{Leaves};
ghost use Rattle.reading.specs.TokenLaws.{Ends, ReadingOn};

pub mod counts;
pub mod returns;

// What a name or a number refers to is known from its first use on.
pub fn references_stay()
    ensures { Stays }
{}

// The table has the addresses of the draft's labels.
pub fn labels_are_placed()
    ensures { Placed }
{}

// Settled word by word, the code in memory is the code of the program.
pub fn words_resolve()
    ensures { Resolves }
{}

// At a token the states on the stack are left, in memory as in the definitions, until one takes it.
pub fn states_are_left()
    ensures { Leaves }
{}

// One token more: a reader that holds what the tokens so far make finds the first refusal at the token, or holds what the tokens with it make.
pub fn reading_goes_on()
    ensures { ReadingOn }
{}

// At the end of the tokens a reader without a state has read a program without refusal, and else the text breaks off.
pub fn ends_are_told()
    ensures { Ends }
{}

// The limits of programs: which refusal a text gets, if any, and the symbols and cells of its names and numbers.
// It knows tokens, the grammar and words of arithmetic. What is defined stands in specs/; the functions here carry
// the theorems about it.
#![tactic(auto)]

ghost use Rattle.limits.specs.Laws.{OneAnswer, OnePass, Cells, Table, Trees, States};
ghost use Rattle.limits.specs.Samples.{Samples};

// A text has one refusal or is accepted as one program, and `refusal` says which.
pub fn one_answer_holds()
    ensures { OneAnswer }
{}

// One pass with the recogniser's stack finds the first refusal of 3 to 11.
pub fn one_pass_suffices()
    ensures { OnePass }
{}

// Variables and numbers have cells of their own, and without refusal these are few.
pub fn cells_are_apart()
    ensures { Cells }
{}

// The table of symbols has one for each first use of a name or number word, and no other.
pub fn table_is_exact()
    ensures { Table }
{}

// What holds of the tree of a program, by the refusals that its tokens lack.
pub fn trees_are_within_limits()
    ensures { Trees }
{}

// What the recogniser's stack says of the tokens that it has taken: the role of a name, and how deep the stack is.
pub fn states_agree()
    ensures { States }
{}

// Small texts, their trees, refusals and symbols.
pub fn samples_hold()
    ensures { Samples }
{}

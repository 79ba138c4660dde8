// What a program does and what its code does, as mathematics: the source run with its costs, the machine, the code of a
// tree, and the theorems that join them, for every arithmetic and every host. It holds no running code: only the two enums
// that a machine shares with these definitions, and small functions whose contracts name the theorems. It knows trees,
// words and hosts, and nothing of texts, tokens or symbol tables: the cells of variables and numbers are a parameter.
#![tactic(auto)]

ghost use Rattle.runs.specs.Samples.{Samples};
ghost use Rattle.runs.specs.Statements.{WordsDecode, CodeIsSound, OtherCellsStay, StepsMayBeCut};
ghost use Rattle.runs.specs.Statements.{BudgetedRunsSettle, BudgetedRunsAgree, WholeRunExactlyWhen, InstructionsCounted};

pub mod instruction;
pub mod status;

// A word means an instruction exactly if it is made from it.
pub fn words_decode()
    ensures { WordsDecode }
{}

// The code of a program has no corrupt word, and no run of it becomes corrupt.
pub fn code_is_sound()
    ensures { CodeIsSound }
{}

// A run writes no cell but #TEMP, the temporaries and its variables; with those set to 0 the cells are ready for another run.
pub fn other_cells_stay()
    ensures { OtherCellsStay }
{}

// Whatever the code, n steps and then m are n + m steps, and their counts add up.
pub fn steps_may_be_cut()
    ensures { StepsMayBeCut }
{}

// The events whose running cost is at most n are all there from some number of source steps on, and no others come later.
pub fn budgeted_runs_settle()
    ensures { BudgetedRunsSettle }
{}

// After n steps the machine shows just the source run's events whose running cost is at most n, and its host is what they leave.
pub fn budgeted_runs_agree()
    ensures { BudgetedRunsAgree }
{}

// The machine shows the whole of a run exactly when the run closes and the steps are at least its cost.
pub fn whole_run_exactly_when()
    ensures { WholeRunExactlyWhen }
{}

// As many instructions are carried out as there are steps, while the run is open; once it has closed, as many as it cost.
pub fn instructions_counted()
    ensures { InstructionsCounted }
{}

// Worked samples of the source run, the code and the machine.
pub fn samples_hold()
    ensures { Samples }
{}

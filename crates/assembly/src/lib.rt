// Code in the making as numbers in memory, a plan, and the draft of the definitions that it stands for. It holds no running
// code but the entries of the operator stack; what is defined stands in specs/, and the functions here carry the theorems
// about it.
#![tactic(auto)]

ghost use Rattle.assembly.specs.Laws.{Acts};

pub mod mark;

// An action on a plan that is drawn from a draft makes the plan that is drawn from the draft after the action.
pub fn plans_follow_drafts()
    ensures { Acts }
{}

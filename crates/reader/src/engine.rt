// The engine: states on a stack of returns, and the table that says what each does at a token.
ghost use Rattle.std.specs.Prelude.{◌≡◌, [], ◌∷◌, length, drop};
ghost use Rattle.assembly.specs.Plans.{acted};
ghost use Rattle.emission.specs.declared.state.State.TheVariants.{Next, Start};
ghost use Rattle.reading.specs.Counting.{counts};
ghost use Rattle.reading.specs.Reads.{current};
ghost use Rattle.reading.specs.Steps.{leaving, pushed_all};
ghost use Rattle.reader.specs.Views.{plan, nothing_made, rooms, returns, return_room, Keeps, entry_of, Answers};
ghost use Rattle.reader.specs.Taking.{Begins};

use crate::counting::no_counts;
use crate::reader::Reader;
use crate::step::Step;
use assembler::assembler::Assembler;
use assembly::mark::Mark;
use emission::moves::Move;
use emission::state::State;
use emission::table::entry;
use reading::returns::Return;
use stack::stack::Stack;

// A state that is entered at the first word.
fn begun(state: State) -> Return
    ensures { result ≡ record { state = state; address = 0 } }
{
    Return { state, address: 0 }
}

impl<'c, 'o, 'm, 'r> Reader<'c, 'o, 'm, 'r> {
    // A reader before the first token of a text: nothing is made or counted, and the two states that the translator begins with are
    // on the stack.
    pub fn new(
        code: &'c mut [u16],
        operands: &'o mut [u16],
        operators: &'m mut [Mark],
        states: &'r mut [Return],
    ) -> Reader<'c, 'o, 'm, 'r>
        ensures plan { plan result ≡ nothing_made code.old }
        ensures returns { returns result ≡ pushed_all (length states.old) 0 (Start ∷ Next ∷ []) [] }
        ensures counts { result.counts ≡ counts 0 0 0 }
        ensures code { result.assembler.code.ghost_name ≡ code.entry.ghost_name }
        ensures operands { (result.assembler.operands.items.ghost_name ≡ operands.entry.ghost_name) × (result.assembler.operands.items.now ≡ operands.old) }
        ensures operators { (result.assembler.operators.items.ghost_name ≡ operators.entry.ghost_name) × (result.assembler.operators.items.now ≡ operators.old) }
        ensures lent_states { result.returns.items.ghost_name ≡ states.entry.ghost_name }
        ensures states_room { return_room result ≡ length states.old }
        ensures states_beyond { drop 2 result.returns.items.now ≡ drop 2 states.old }
        ensures begins { Begins code.old result }
    {
        let mut returns = Stack::new(states);
        let _ = returns.push(begun(State::Next));
        let _ = returns.push(begun(State::Start));
        Reader {
            assembler: Assembler::new(code, operands, operators),
            returns,
            counts: no_counts(),
        }
    }

    // The state on top; without one, that after a whole command.
    pub(crate) fn current(&self) -> State
        ensures { result ≡ current (returns self.now) }
    {
        self.returns.top().map_or(State::Next, |top| top.state)
    }

    // States are left, each with its action, until one takes a token of this class: what that state does. `None` where none takes it.
    pub(crate) fn leave(&mut self, class: usize) -> Option<Step>
        ensures answer { Answers (leaving (rooms self.old) «class» (returns self.old) (plan self.old)).taken result }
        ensures below { returns self.new ≡ (leaving (rooms self.old) «class» (returns self.old) (plan self.old)).below }
        ensures plan { plan self.new ≡ (leaving (rooms self.old) «class» (returns self.old) (plan self.old)).plan }
        ensures counts { self.new.counts ≡ self.old.counts }
        ensures kept { Keeps self.old self.new }
    {
        'states: while let Some(top) = self.returns.pop() {
            match entry(top.state, class) {
                Move::Refuse => return None,
                // Leaving refers to nothing, which is 0: no action of it reads the number.
                Move::Leave(action) => self.assembler.perform(action, top.address, 0),
                Move::Take(action, states) => {
                    return Some(Step {
                        entered: top.address,
                        action,
                        states,
                    });
                }
            }
        }
        None
    }

    // A state comes on top of the stack. By the limits of a text there is always room for it.
    fn push(&mut self, state: State)
        ensures returns { returns self.new ≡ pushed_all (return_room self.old) (plan self.old).made.count (state ∷ []) (returns self.old) }
        ensures plan { self.new.assembler ≡ self.old.assembler }
        ensures counts { self.new.counts ≡ self.old.counts }
        ensures kept { Keeps self.old self.new }
    {
        let address = self.assembler.count();
        let _ = self.returns.push(Return { state, address });
    }

    // A state takes a token that refers to a cell or a symbol: its action is carried out, and the states that stand in its place
    // come on the stack.
    pub(crate) fn enter(&mut self, step: Step, reference: u16)
        ensures plan { plan self.new ≡ acted (rooms self.old) step.action step.entered reference (plan self.old) }
        ensures returns { returns self.new ≡ pushed_all (return_room self.old) (plan self.new).made.count (entry_of step).states (returns self.old) }
        ensures counts { self.new.counts ≡ self.old.counts }
        ensures kept { Keeps self.old self.new }
    {
        self.assembler.perform(step.action, step.entered, reference);
        for state in step.states {
            self.push(*state);
        }
    }
}

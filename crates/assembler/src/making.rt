// The assembler at work: words, expressions by two stacks, and the actions of the table.
ghost use Rattle.std.specs.Prelude.{◌≡◌, ◌<◌, [], slice_set};
ghost use Rattle.runs.specs.Code.{operating as operating_on, branching as branching_to};
ghost use Rattle.assembly.specs.Plans.{words, work, planned, with_made, put_word, emit, emit_jump, land_at, reduces, temporary, operation, reduced, binding, operate, push_mark, push_cell, closed, loaded, end_expression, aside, begin_then, acted};
ghost use Rattle.assembler.specs.Jumps.{operation as jump_operation};
ghost use Rattle.assembler.specs.Views.{plan, rooms, Keeps, waiting_operator, Applies};

use crate::assembler::Assembler;
use crate::word::{Jump, instruction_word, jump_word};
use assembly::mark::Mark;
use emission::action::Action;
use runs::instruction::Instruction;
use stack::stack::Stack;
use trees::operator::Operator;
use trees::relation::Relation;

// The cells with a purpose of their own: #TEMP, #ONE, and the first of the temporaries.
const TEMP: u16 = 0;

const ONE: u16 = 1;

const FIRST_TEMPORARY: u16 = 2;

// A word at an address, if the code reaches there. By `get_mut` it has no proof: its contract does not say what a slice holds
// after a write.
fn write(code: &mut [u16], address: u16, word: u16)
    ensures { code.new ≡ slice_set code.old address word }
{
    let at = address as usize;
    if at < code.len() {
        code[at] = word;
    }
}

fn operating(operator: Operator, cell: u16) -> Instruction
    ensures { result ≡ operating_on operator cell }
{
    match operator {
        Operator::Plus => Instruction::Ada(cell),
        Operator::Minus => Instruction::Sub(cell),
        Operator::Times => Instruction::Mul(cell),
        Operator::Over => Instruction::Div(cell),
    }
}

fn branching(relation: Relation, address: u16) -> Instruction
    ensures { result ≡ branching_to relation address }
{
    match relation {
        Relation::Greater => Instruction::Brn(address),
        Relation::Equal => Instruction::Brz(address),
        Relation::Less => Instruction::Brp(address),
    }
}

// Whether an operator is "+" or "-", which all operators before it come before.
fn is_sum(operator: Operator) -> bool
    ensures { result ≡ binding operator }
{
    matches!(operator, Operator::Plus | Operator::Minus)
}

// Whether an operator that waits is reduced now: all are, or it binds as close as "*" and "/".
fn is_reduced(operator: Operator, all: bool) -> bool
    ensures { result ≡ reduces all operator }
{
    all || !is_sum(operator)
}

impl<'c, 'o, 'm> Assembler<'c, 'o, 'm> {
    // Nothing is made yet.
    pub fn new(
        code: &'c mut [u16],
        operands: &'o mut [u16],
        operators: &'m mut [Mark],
    ) -> Assembler<'c, 'o, 'm>
        ensures plan { plan result ≡ planned (words code.old 0) (work [] [] 0) 0 0 Relation.Greater }
        ensures code { result.code.ghost_name ≡ code.entry.ghost_name }
        ensures operands { (result.operands.items.ghost_name ≡ operands.entry.ghost_name) × (result.operands.items.now ≡ operands.old) }
        ensures operators { (result.operators.items.ghost_name ≡ operators.entry.ghost_name) × (result.operators.items.now ≡ operators.old) }
    {
        Assembler {
            code,
            count: 0,
            operands: Stack::new(operands),
            operators: Stack::new(operators),
            temporaries: 0,
            target: 0,
            kept: 0,
            relation: Relation::Greater,
        }
    }

    // How many words there are, or 65,535 for any more.
    pub fn count(&self) -> u16
        ensures { result ≡ (plan self.now).made.count }
    {
        self.count
    }

    // One word more.
    fn put(&mut self, word: u16)
        ensures after { plan self.new ≡ with_made (put_word word (plan self.old).made) (plan self.old) }
        ensures kept { Keeps self.old self.new }
    {
        let at = self.count;
        write(self.code, at, word);
        self.count = at.saturating_add(1);
    }

    // One instruction more.
    fn emit(&mut self, instruction: Instruction)
        ensures after { plan self.new ≡ emit instruction (plan self.old) }
        ensures kept { Keeps self.old self.new }
    {
        self.put(instruction_word(instruction));
    }

    // One jump more to the label with this symbol.
    fn emit_jump(&mut self, jump: Jump, symbol: u16)
        ensures after { plan self.new ≡ emit_jump (jump_operation jump) symbol (plan self.old) }
        ensures kept { Keeps self.old self.new }
    {
        self.put(jump_word(jump, symbol));
    }

    // The jump that stands before an address now leads to the next word.
    fn land(&mut self, address: u16)
        ensures after { plan self.new ≡ land_at address (plan self.old) }
        ensures kept { Keeps self.old self.new }
    {
        let jump = address.saturating_sub(1);
        if jump < self.count {
            let word = instruction_word(Instruction::Bru(self.count));
            write(self.code, jump, word);
        }
    }

    // The entries of the stacks: by the limits of a text there is always room, so that each push succeeds. Each stack has its
    // method: one for both would be given the stack and its part of the plan, and be no shorter.
    fn push_operand(&mut self, cell: u16)
        ensures after { plan self.new ≡ push_cell (rooms self.old).cells cell (plan self.old) }
        ensures kept { Keeps self.old self.new }
    {
        let _ = self.operands.push(cell);
    }

    fn push_mark(&mut self, mark: Mark)
        ensures after { plan self.new ≡ push_mark (rooms self.old).marks mark (plan self.old) }
        ensures kept { Keeps self.old self.new }
    {
        let _ = self.operators.push(mark);
    }

    // The cell of the next temporary.
    fn temporary(&self) -> u16
        ensures { result ≡ temporary (plan self.now).making.temporaries }
    {
        self.temporaries.saturating_add(FIRST_TEMPORARY)
    }

    // One operation: left and right by their cells, and the result into the next temporary, which waits as an operand.
    fn operation(&mut self, operator: Operator, left: u16, right: u16)
        ensures after { plan self.new ≡ with_made (operation operator left right (plan self.old).making.temporaries (plan self.old).made) (plan self.old) }
        ensures kept { Keeps self.old self.new }
    {
        self.emit(Instruction::Lda(left));
        self.emit(operating(operator, right));
        self.emit(Instruction::Sta(self.temporary()));
    }

    // Operators that wait on top are reduced, each to a temporary: all of them, or those that bind as close as "*" and "/". Which is a
    // truth value and no enum, since `is_reduced` alone asks, and answers it as it stands.
    fn reduce(&mut self, all: bool)
        ensures after { plan self.new ≡ reduced all (plan self.old) }
        ensures kept { Keeps self.old self.new }
    {
        'operators: while let Some(operator) = self.waiting(all) {
            self.apply(operator);
        }
    }

    // The operator on top, if it is to be reduced and has its two operands.
    fn waiting(&self, all: bool) -> Option<Operator>
        ensures { result ≡ waiting_operator all (plan self.now).making.marks (plan self.now).making.cells }
    {
        if self.operands.depth() < 2 {
            return None;
        }
        let Some(Mark::Pending(operator)) = self.operators.top() else {
            return None;
        };
        is_reduced(operator, all).then_some(operator)
    }

    // The operator on top is applied to the two operands on top.
    fn apply(&mut self, operator: Operator)
        ensures after { Applies operator (plan self.old) (plan self.new) }
        ensures kept { Keeps self.old self.new }
    {
        let _ = self.operators.pop();
        let (Some(right), Some(left)) = (self.operands.pop(), self.operands.pop()) else {
            return;
        };
        let temporary = self.temporary();
        self.operation(operator, left, right);
        self.push_operand(temporary);
        self.temporaries = self.temporaries.saturating_add(1);
    }

    // An operator comes behind an operand: what binds as close before it, or closer, is reduced first.
    fn operate(&mut self, operator: Operator)
        ensures after { plan self.new ≡ operate (rooms self.old).marks operator (plan self.old) }
        ensures kept { Keeps self.old self.new }
    {
        self.reduce(is_sum(operator));
        self.push_mark(Mark::Pending(operator));
    }

    // The open parenthesis on top is closed.
    fn close_group(&mut self)
        ensures after { plan self.new ≡ closed (plan self.old) }
        ensures kept { Keeps self.old self.new }
    {
        if self.operators.top() == Some(Mark::Open) {
            let _ = self.operators.pop();
        }
    }

    // The end of an expression whose operators are reduced: a whole one leaves its value in the accumulator.
    fn end_expression(&mut self)
        ensures after { plan self.new ≡ end_expression (plan self.old) }
        ensures kept { Keeps self.old self.new }
    {
        if self.operators.depth() > 0 {
            return;
        }
        if self.temporaries == 0 {
            self.load_operand();
        }
        self.operands.clear();
        self.temporaries = 0;
    }

    // A lone operand is loaded.
    fn load_operand(&mut self)
        ensures after { plan self.new ≡ with_made (loaded (plan self.old).making.cells 0 (plan self.old).made) (plan self.old) }
        ensures kept { Keeps self.old self.new }
    {
        if let Some(cell) = self.operands.top() {
            self.emit(Instruction::Lda(cell));
        }
    }

    // The first value of a comparison is put aside.
    fn put_aside(&mut self, relation: Relation)
        ensures after { plan self.new ≡ aside relation (plan self.old) }
        ensures kept { Keeps self.old self.new }
    {
        self.emit(Instruction::Sta(TEMP));
        self.relation = relation;
    }

    // The second value is compared with the first: on to the THEN part, or over it to an address that is not known yet. A word holds a
    // number, so that such an address is 0 until the jump lands.
    fn begin_then(&mut self)
        ensures after { plan self.new ≡ begin_then (plan self.old) }
        ensures kept { Keeps self.old self.new }
    {
        let inside = self.count.saturating_add(3);
        self.emit(Instruction::Sub(TEMP));
        self.emit(branching(self.relation, inside));
        self.emit(Instruction::Bru(0));
        self.relation = Relation::Greater;
    }

    // Carries out an action, by a state that was entered at an address, at a name or a number that refers to a cell or a symbol. The action
    // says which of the two the number is, and reads none where the token refers to nothing.
    pub fn perform(&mut self, action: Action, entered: u16, reference: u16)
        ensures after { plan self.new ≡ acted (rooms self.old) action entered reference (plan self.old) }
        ensures kept { Keeps self.old self.new }
    {
        // Actions are entries of a constant table, which holds no closures: they are told apart here, each once.
        match action {
            Action::Nothing | Action::DefineLabel => {}
            Action::SetTarget => self.target = reference,
            Action::StoreTarget => {
                self.emit(Instruction::Sta(self.target));
                self.target = 0;
            }
            Action::KeepName => self.kept = reference,
            Action::JumpToName => {
                self.emit_jump(Jump::Always, self.kept);
                self.kept = 0;
            }
            Action::LoadName => {
                self.emit(Instruction::Lda(self.kept));
                self.kept = 0;
            }
            Action::FirstLabel => self.emit_jump(Jump::IfZero, reference),
            Action::FurtherLabel => {
                self.emit(Instruction::Sub(ONE));
                self.emit_jump(Jump::IfZero, reference);
            }
            Action::ReadName => {
                self.emit(Instruction::Read);
                self.emit(Instruction::Sta(reference));
            }
            Action::SkipLine => self.emit(Instruction::Read),
            Action::PrintValue => {
                self.emit(Instruction::Convert);
                self.emit(Instruction::Newline);
            }
            Action::EndLine => self.emit(Instruction::Newline),
            Action::PushVariable | Action::PushNumber => self.push_operand(reference),
            Action::OpenGroup => self.push_mark(Mark::Open),
            Action::CloseGroup => self.close_group(),
            Action::Operate(operator) => self.operate(operator),
            Action::EndExpression => {
                self.reduce(true);
                self.end_expression();
            }
            Action::Compare(relation) => self.put_aside(relation),
            Action::BeginThen => self.begin_then(),
            Action::BeginElse => {
                self.emit(Instruction::Bru(0));
                self.land(entered);
            }
            Action::EndElse => self.land(entered),
            Action::EndProgram => self.emit(Instruction::Stop),
        }
    }
}

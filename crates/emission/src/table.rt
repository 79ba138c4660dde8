// The table: for each state and each class of tokens, the letter of what the translator does there.
ghost use Rattle.std.specs.Prelude.{◌≡◌, ◌-◌, ◌<◌, [], map, slice_index, slice_index_or};
ghost use Rattle.emission.specs.Table.{refuse};
ghost use Rattle.emission.specs.Classes.{class_move, letters, meaning, state_number};

use crate::action::Action;
use crate::moves::Move;
use crate::state::State;
use trees::operator::Operator;
use trees::relation::Relation;

// A row for each state, a column for each class: names, numbers, the keywords, the signs, other bytes.
// Letters stand for moves, since a row of moves would not fit on a line and the table could not be read as one.
const TABLE: [[u8; 26]; 24] = [
    *b"..7.........8.............",
    *b"9//:;//<=>////////////////",
    *b".............?............",
    *b"@.........................",
    *b"..............A...........",
    *b"00000000000000000000000000",
    *b".....B....................",
    *b"C.........................",
    *b"111111D1111111111111111111",
    *b"E.........................",
    *b"/////////////////////F////",
    *b"G.........................",
    *b"H2222222222222222222222222",
    *b"/////////////////////I////",
    *b"H.........................",
    *b"JK33333333333333333L333333",
    *b"444444444444444444444M4444",
    *b"......................NOP.",
    *b"..........Q...............",
    *b"...........R..............",
    *b"55555555555555555555555555",
    *b"ST.................U......",
    *b"666666666666666VWXY6666666",
    *b"....................Z.....",
];

// Each move that the table has: the first has the letter ".", and the others the letters after it.
const MOVES: [Move; 45] = [
    Move::Refuse,
    Move::Leave(Action::Nothing),
    Move::Leave(Action::StoreTarget),
    Move::Leave(Action::JumpToName),
    Move::Leave(Action::SkipLine),
    Move::Leave(Action::EndLine),
    Move::Leave(Action::PrintValue),
    Move::Leave(Action::EndElse),
    Move::Leave(Action::EndExpression),
    Move::Take(Action::EndProgram, &[]),
    Move::Take(Action::Nothing, &[State::Next, State::Start]),
    Move::Take(Action::DefineLabel, &[State::Label]),
    Move::Take(Action::Nothing, &[State::LetWord]),
    Move::Take(Action::Nothing, &[State::GoWord]),
    Move::Take(Action::Nothing, &[State::ReadWord]),
    Move::Take(Action::Nothing, &[State::PrintWord]),
    Move::Take(Action::Nothing, &[State::LeftSide, State::Operand]),
    Move::Take(Action::Nothing, &[State::Start]),
    Move::Take(Action::SetTarget, &[State::LetName]),
    Move::Take(Action::Nothing, &[State::LetEnd, State::Operand]),
    Move::Take(Action::Nothing, &[State::ToWord]),
    Move::Take(Action::KeepName, &[State::ToName]),
    Move::Take(Action::LoadName, &[State::OfWord]),
    Move::Take(Action::FirstLabel, &[State::OfNames]),
    Move::Take(Action::Nothing, &[State::OfComma]),
    Move::Take(Action::FurtherLabel, &[State::OfNames]),
    Move::Take(Action::ReadName, &[State::ReadNames]),
    Move::Take(Action::Nothing, &[State::ReadComma]),
    Move::Take(
        Action::PushVariable,
        &[State::PrintList, State::AfterOperand],
    ),
    Move::Take(Action::PushNumber, &[State::PrintList, State::AfterOperand]),
    Move::Take(
        Action::OpenGroup,
        &[State::PrintList, State::Group, State::Operand],
    ),
    Move::Take(Action::PrintValue, &[State::PrintList, State::Operand]),
    Move::Take(
        Action::Compare(Relation::Greater),
        &[State::RightSide, State::Operand],
    ),
    Move::Take(
        Action::Compare(Relation::Equal),
        &[State::RightSide, State::Operand],
    ),
    Move::Take(
        Action::Compare(Relation::Less),
        &[State::RightSide, State::Operand],
    ),
    Move::Take(Action::BeginThen, &[State::ThenPart, State::Start]),
    Move::Take(Action::BeginElse, &[State::ElsePart, State::Start]),
    Move::Take(Action::PushVariable, &[State::AfterOperand]),
    Move::Take(Action::PushNumber, &[State::AfterOperand]),
    Move::Take(Action::OpenGroup, &[State::Group, State::Operand]),
    Move::Take(Action::Operate(Operator::Plus), &[State::Operand]),
    Move::Take(Action::Operate(Operator::Minus), &[State::Operand]),
    Move::Take(Action::Operate(Operator::Times), &[State::Operand]),
    Move::Take(Action::Operate(Operator::Over), &[State::Operand]),
    Move::Take(Action::CloseGroup, &[State::AfterOperand]),
];

// The row of a state, in the order in which the states are listed.
fn row(state: State) -> usize
    ensures { result ≡ state_number state }
{
    state as usize
}

// The move with a letter, of moves whose first has the letter ".". They are a parameter, so that what is said of it does not spell out
// the constant.
fn lettered(moves: &[Move], letter: u8) -> Move
    ensures { meaning result ≡ slice_index_or (map meaning moves.now) (letter - 46) refuse }
{
    let index = letter.saturating_sub(b'.') as usize;
    moves.get(index).copied().unwrap_or(Move::Refuse)
}

#[tactic(auto, unfolding(crate::specs::Classes::letters))]
fn letter(row: usize, column: usize) -> u8
    requires row_bound { row < 24 }
    requires column_bound { column < 26 }
    ensures { result ≡ slice_index (slice_index_or letters row []) column }
{
    TABLE[row][column]
}

// What a state does at a token of a class; a class above 25 counts as 25.
pub fn entry(state: State, class: usize) -> Move
    ensures { meaning result ≡ class_move state «class» }
{
    lettered(&MOVES, letter(row(state), class.min(25)))
}

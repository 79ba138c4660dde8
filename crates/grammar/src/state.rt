// The states of the recogniser, which its stack of returns holds too.
#[derive(Clone, Copy, PartialEq, Eq, Debug)]
pub enum State {
    // after a whole command of the program
    Next,
    // at the start of a command, and after a name there
    Start,
    Label,
    LetWord,
    LetName,
    GoWord,
    ToWord,
    ToName,
    OfWord,
    OfNames,
    OfComma,
    ReadWord,
    ReadNames,
    ReadComma,
    PrintWord,
    // after an expression of PRINT
    PrintList,
    // after the first expression of a comparison, and after the second
    LeftSide,
    RightSide,
    // after a command that follows THEN
    ThenPart,
    // before an operand, and after one
    Operand,
    AfterOperand,
    // after an expression in parentheses
    Group,
}

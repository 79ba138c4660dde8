// The states of the translator, which its stack of returns holds too: those of the recogniser and two that only return, so that the
// two enums are no one type.
#[derive(Clone, Copy, PartialEq, Eq, Debug)]
pub enum State {
    // after a whole command of the program
    Next,
    // at the start of a command, and after a name there
    Start,
    Label,
    LetWord,
    LetName,
    // after the expression of LET
    LetEnd,
    GoWord,
    ToWord,
    ToName,
    OfWord,
    OfNames,
    OfComma,
    ReadWord,
    ReadNames,
    ReadComma,
    PrintWord,
    // after an expression of PRINT
    PrintList,
    // after the first expression of a comparison, and after the second
    LeftSide,
    RightSide,
    // after a command that follows THEN, and after one that follows ELSE
    ThenPart,
    ElsePart,
    // before an operand, and after one
    Operand,
    AfterOperand,
    // after an expression in parentheses
    Group,
}

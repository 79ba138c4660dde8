// What the translator does to a draft at a token, or when it leaves a state.
use trees::operator::Operator;
use trees::relation::Relation;

#[derive(Clone, Copy, PartialEq, Eq, Debug)]
pub enum Action {
    Nothing,
    // a label stands before a command
    DefineLabel,
    // the variable of LET, and the end of LET
    SetTarget,
    StoreTarget,
    // the name after GO TO; what it is shows when OF comes or the command ends
    KeepName,
    JumpToName,
    LoadName,
    // the labels after OF
    FirstLabel,
    FurtherLabel,
    // READ: a name, and none
    ReadName,
    SkipLine,
    // PRINT: after an expression, and none
    PrintValue,
    EndLine,
    // operands, parentheses, operators, and the end of an expression
    PushVariable,
    PushNumber,
    OpenGroup,
    CloseGroup,
    Operate(Operator),
    EndExpression,
    // the relation of a comparison
    Compare(Relation),
    // THEN, ELSE, and the end of an IF
    BeginThen,
    BeginElse,
    EndElse,
    // END
    EndProgram,
}

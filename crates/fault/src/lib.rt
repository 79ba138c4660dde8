// What a call answers when it refuses: which refusal, by its number, and the place in the text that it concerns.
// Every layer hands a fault on unchanged.
#![tactic(auto)]

ghost use Rattle.std.specs.Prelude.{◌≡◌, Some};
ghost use Rattle.fault.specs.Refusals.{numbered, refused_form};

use std::fmt;

// The refusals, in the order of their numbers, which begin at 1.
#[derive(Clone, Copy, PartialEq, Eq, Debug)]
pub enum Refusal {
    // Lent memory is shorter than the call needs.
    ShortMemory,
    // A text is longer than 32,768 bytes.
    LongText,
    // No program begins with the tokens up to this place.
    NoProgram,
    // A name is longer than 32 bytes.
    LongName,
    // A label stands before a command a second time.
    DuplicateLabel,
    // A name is used both as a label and as a variable.
    MixedKind,
    // There are more than 446 variables and distinct numbers.
    TooManyCells,
    // There are more than 256 label names.
    TooManyLabels,
    // One expression has more than 64 operators.
    TooManyOperators,
    // Parentheses, or IF commands, are nested more than 32 deep.
    TooDeep,
    // More than 64 labels follow OF.
    TooManyTargets,
    // A label is mentioned that stands before no command.
    MissingLabel,
    // The code is longer than 4,096 words.
    LongCode,
    // No program is loaded.
    NothingLoaded,
    // A budget is 0 or above 1,000,000.
    BadBudget,
    // The run has closed already.
    RunClosed,
    // A text of input lines breaks their form.
    BadLine,
    // A code word or a symbol points outside its memory.
    Corrupt,
    // A listing is longer than its output.
    ShortOutput,
}

impl Refusal {
    // The number by which the refusal is shown.
    pub fn number(self) -> u8
        ensures { result ≡ numbered self }
    {
        self as u8 + 1
    }
}

// A refusal with its place: a byte offset for those that concern a place of a text, an index for Corrupt, else 0.
#[derive(Clone, Copy, PartialEq, Eq, Debug)]
pub struct Fault {
    pub refusal: Refusal,
    pub place: usize,
}

// As `(refused 3 8)`: the number, and the place.
impl fmt::Display for Fault {
    ghost output = { λ f. Some (refused_form f) };

    fn fmt<W: fmt::Write>(&self, f: &mut fmt::Formatter<W>) -> fmt::Result {
        let number = self.refusal.number();
        let place = self.place;
        write!(f, "(refused {number} {place})")
    }
}

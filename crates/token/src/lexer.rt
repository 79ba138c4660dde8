// The lexer, a finite transducer: it takes byte after byte, and gives a token where it comes back to its first state.
ghost use Rattle.std.specs.Prelude.{◌≤◌, length};

mod reading;

// The states of the transducer.
#[derive(Clone, Copy, PartialEq, Eq)]
enum State {
    // Between tokens.
    E1,
    // In a name.
    E2,
    // In a number.
    E3,
    // After ":".
    E4,
    // After ":=".
    E5,
    // In a comment.
    E6,
    // After a sign or a byte of no program.
    E7,
}

// A lexer: a text, and how far it is read. It gives offsets in the text, so that where it stands is a number beside it.
#[derive(Drop)]
pub struct Lexer<'t> {
    text: &'t [u8],
    at: usize,
    // By a rule of the project one match on the state and the next byte changes the state in place, so that it is the lexer's own and no
    // answer of its functions. Between calls it means nothing.
    state: State,
    ghost within: { at ≤ length text.now },
}

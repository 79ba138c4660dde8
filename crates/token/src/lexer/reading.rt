// The transducer at work: one byte after another, up to the next token.
ghost use Rattle.std.specs.Prelude.{◌≡◌, ◌+◌, ◌<◌, ◌≤◌, true, [], length, drop, Some, MatchBool};
ghost use Rattle.token.specs.Lexis.{tokens};
ghost use Rattle.token.specs.Transducer.{moves, inside, width, final, emitted, Begun};
ghost use Rattle.token.specs.Views.{meant, rest_of, Gives};

use crate::kinds::Sign;
use crate::lexer::{Lexer, State};
use crate::tokens::{Lexeme, Token};
use crate::words::{keyword, sign};

impl<'t> Lexer<'t> {
    // A lexer before the first token of a text.
    pub fn new(text: &'t [u8]) -> Lexer<'t>
        ensures tokens { rest_of result ≡ tokens text.now }
        ensures text { result.text ≡ text.entry }
    {
        Lexer {
            text,
            at: 0,
            state: State::E1,
        }
    }

    // One byte, from the state that the lexer is in to the next. From inside a token E1 says that it ends before the byte.
    fn step(&mut self, b: u8)
        ensures same { (self.new.text ≡ self.old.text) × (self.new.at ≡ self.old.at) }
        ensures state { self.new.state ≡ moves self.old.state b }
    {
        match (self.state, b) {
            (State::E1, b' ' | b'\n') => {}
            (State::E1, b'%') => self.state = State::E6,
            (State::E1, b'A'..=b'Z') => self.state = State::E2,
            (State::E1, b'0'..=b'9') => self.state = State::E3,
            (State::E1, b':') => self.state = State::E4,
            (State::E1, _) => self.state = State::E7,
            (State::E2, b'A'..=b'Z' | b'0'..=b'9') => {}
            (State::E3, b'0'..=b'9') => {}
            (State::E4, b'=') => self.state = State::E5,
            (State::E6, b'\n') => self.state = State::E1,
            (State::E6, _) => {}
            // The token ends before this byte.
            _ => self.state = State::E1,
        }
    }

    // On over blanks and comments: to the first byte of a token, with the state that it leads to, or to the end of the text.
    // Answers whether there is a token.
    fn skip(&mut self) -> bool
        ensures text { self.new.text ≡ self.old.text }
        ensures rest { rest_of self.new ≡ rest_of self.old }
        ensures to { self.old.at ≤ self.new.at }
        ensures begun { MatchBool result (Begun self.new.text.now self.new.at self.new.state) ((self.new.at ≡ length self.new.text.now) × (rest_of self.new ≡ [])) }
    {
        self.state = State::E1;
        // Here and in `scan`: `at` is counted in the lexer itself, since the next call goes on there.
        for next in &self.text[self.at..] {
            self.step(*next);
            if self.state.inside() {
                return true;
            }
            self.at += 1;
        }
        false
    }

    // On to the end of a token that is begun; answers the state in which it ends.
    fn scan(&mut self) -> State
        requires { inside self.old.state ≡ true }
        ensures text { self.new.text ≡ self.old.text }
        ensures to { self.new.at ≡ self.old.at + width self.old.state (drop self.old.at self.old.text.now) }
        ensures kind { result ≡ final self.old.state (drop self.old.at self.old.text.now) }
    {
        for next in &self.text[self.at..] {
            let kind = self.state;
            self.step(*next);
            if !self.state.inside() {
                return kind;
            }
            self.at += 1;
        }
        self.state
    }

    // The token that is begun.
    fn take(&mut self) -> Lexeme<'t>
        requires { Begun self.old.text.now self.old.at self.old.state }
        ensures { Gives self.old self.new result }
    {
        let text = self.text;
        let offset = self.at;
        self.at += 1;
        let kind = self.scan();
        Lexeme {
            token: emit(kind, &text[offset..self.at]),
            offset,
        }
    }

    // The next token with its offset; at the end of the text, and ever after, the end at the text's length.
    pub fn next(&mut self) -> Lexeme<'t>
        ensures { Gives self.old self.new result }
    {
        if self.skip() {
            self.take()
        } else {
            Lexeme {
                token: Token::End,
                offset: self.at,
            }
        }
    }
}

impl State {
    // Whether a token is begun.
    fn inside(self) -> bool
        ensures { result ≡ inside self }
    {
        !matches!(self, State::E1 | State::E6)
    }
}

// The token of some bytes, by the state in which it ends.
fn emit<'t>(kind: State, bytes: &'t [u8]) -> Token<'t>
    requires { 0 < length bytes.now }
    ensures { meant result ≡ Some (emitted kind bytes.now) }
{
    match kind {
        State::E2 => match keyword(bytes) {
            Some(k) => Token::Keyword(k),
            None => Token::Name(bytes),
        },
        State::E3 => Token::Number(bytes),
        State::E5 => Token::Sign(Sign::Becomes),
        State::E1 | State::E4 | State::E6 | State::E7 => match sign(bytes[0]) {
            Some(s) => Token::Sign(s),
            None => Token::Other(bytes[0]),
        },
    }
}

// Taking a token, by the engine, the table of symbols and the counts.
ghost use Rattle.std.specs.Prelude.{◌≡◌, ◌-◌, length};
ghost use Rattle.token.specs.Views.{meant};
ghost use Rattle.symbols.specs.Table.{Keeps as table_keeps};
ghost use Rattle.reader.specs.Views.{returns, Keeps};
ghost use Rattle.reader.specs.Taking.{FormChecked, TextEnds, TextTaken, TokenTaken};

use crate::counting::{after_token, check_form, is_end, is_of};
use crate::naming::{note, role};
use crate::reader::Reader;
use arithmetic::Arithmetic;
use emission::class::class;
use fault::{Fault, Refusal};
use symbols::table::Table;
use token::lexer::Lexer;
use token::tokens::Lexeme;

// The most words of code; no label stands at a higher address.
pub(crate) const WORDS: u16 = 4_096;

impl<'c, 'o, 'm, 'r> Reader<'c, 'o, 'm, 'r> {
    // Refuses with 9 to 11 at a token. The state that takes it is off the stack, which is then, where IF may come, one deeper than IFs
    // are open. `listed` says that a name is a label in a list after OF.
    fn check(&self, listed: bool, lexeme: Lexeme<'_>) -> Result<(), Fault>
        ensures { FormChecked self.now.counts (length (returns self.now) - 1) listed lexeme.entry.offset (meant lexeme.entry.token) result }
    {
        let ifs = self.returns.depth().saturating_sub(1);
        check_form(self.counts, ifs, listed, lexeme.token).map_err(|refusal| Fault {
            refusal,
            place: lexeme.offset,
        })
    }

    // A token is taken, where OF follows it or not: its states are left, it is told to the table, counted and held against the
    // limits, and its action is carried out. The first refusal that stands at it, where one does.
    pub fn take<N: Arithmetic>(
        &mut self,
        table: &mut Table<'_, '_, '_>,
        lexeme: Lexeme<'_>,
        of_next: bool,
    ) -> Result<(), Fault>
        ensures reader_kept { Keeps self.old self.new }
        ensures table_kept { table_keeps table.old table.new }
        ensures taken { TokenTaken N.Arithmetic.words self.old self.new table.old table.new lexeme.entry.offset (meant lexeme.entry.token) of_next result }
    {
        let state = self.current();
        let step = self.leave(class(lexeme.token)).ok_or(Fault {
            refusal: Refusal::NoProgram,
            place: lexeme.offset,
        })?;
        let role = role(state, of_next, self.assembler.count().min(WORDS));
        let reference = note::<N>(table, role, lexeme)?;
        self.check(role.is_listed(), lexeme)?;
        self.enter(step, reference);
        self.counts = after_token(self.counts, lexeme.token);
        Ok(())
    }

    // At the end of the tokens, which stands at this place: refusal 3 there, where a state still waits for a token.
    pub fn finish(&self, place: usize) -> Result<(), Fault>
        ensures { TextEnds self.now place result }
    {
        match self.returns.top() {
            Some(_) => Err(Fault {
                refusal: Refusal::NoProgram,
                place,
            }),
            None => Ok(()),
        }
    }

    // Takes a whole text, which is the table's, with one token ahead: up to its first refusal, or to its end.
    pub fn read<N: Arithmetic>(
        &mut self,
        table: &mut Table<'_, '_, '_>,
        text: &[u8],
    ) -> Result<(), Fault>
        ensures reader_kept { Keeps self.old self.new }
        ensures table_kept { table_keeps table.old table.new }
        ensures taken { TextTaken N.Arithmetic.words self.old self.new table.old table.new text.now result }
    {
        let mut lexer = Lexer::new(text);
        let mut lexeme = lexer.next();
        'tokens: while !is_end(lexeme.token) {
            let next = lexer.next();
            self.take::<N>(table, lexeme, is_of(next.token))?;
            lexeme = next;
        }
        self.finish(lexeme.offset)
    }
}

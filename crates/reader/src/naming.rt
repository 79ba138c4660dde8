// Names and numbers: how a name is used by the state at which it comes, and how the table is told.
ghost use Rattle.std.specs.Prelude.{◌≡◌, min, length};
ghost use Rattle.token.specs.Views.{meant};
ghost use Rattle.symbols.specs.Entries.{meant as use_meant};
ghost use Rattle.symbols.specs.Table.{Gives, Keeps};
ghost use Rattle.reader.specs.Settling.{address_by};
ghost use Rattle.reader.specs.Telling.{CellRead, NameNoted, NumberNoted, TokenNoted};
ghost use Rattle.reading.specs.Reads.{role_at};

use arithmetic::Arithmetic;
use emission::state::State;
use fault::Fault;
use symbols::kinds::{Role, Spelling};
use symbols::table::Table;
use token::tokens::{Lexeme, Token};

// The role of a name that comes at a state, and before OF or not; a label before a command has the command's address.
pub fn role(state: State, of_next: bool, address: u16) -> Role
    ensures means { use_meant result ≡ role_at state of_next }
    ensures gives { Gives result address }
{
    match state {
        State::Start => Role::Definition(address),
        State::ToWord if !of_next => Role::Target,
        State::OfWord | State::OfComma => Role::Listed,
        _ => Role::Variable,
    }
}

// An offset or a length in 16 bits; a text has at most 32,768 bytes.
fn short(n: usize) -> u16
    ensures { result ≡ min n 65535 }
{
    n.min(65_535) as u16
}

// Where the bytes of a token are spelled. Here and below offset and bytes are handed on, and no spelling: the clauses speak of the bytes,
// which a spelling has not.
fn spelling(place: usize, bytes: &[u8]) -> Spelling
    ensures place { result.place ≡ min place 65535 }
    ensures length { result.length ≡ min (length bytes.now) 65535 }
{
    Spelling {
        place: short(place),
        length: short(bytes.len()),
    }
}

// The cell or, of a label, the address of the symbol at an index. Where there is none it is 0, which no action reads; an Option would be
// taken apart at each action in place of here.
pub(crate) fn cell_or_address(table: &Table<'_, '_, '_>, index: u16) -> u16
    ensures cell { CellRead table.now index result }
    ensures address { result ≡ address_by table.now index }
{
    table.symbol(index).map_or(0, |symbol| symbol.at)
}

// Tells the table of a name: what it refers to, or the refusal of 4 to 8 that stands at it.
fn note_name(
    table: &mut Table<'_, '_, '_>,
    role: Role,
    place: usize,
    bytes: &[u8],
) -> Result<u16, Fault>
    ensures kept { Keeps table.old table.new }
    ensures told { NameNoted table.old table.new role place bytes.now result }
{
    let index = table.note_name(role, spelling(place, bytes))?;
    if role.is_label() {
        return Ok(index);
    }
    Ok(cell_or_address(table, index))
}

// Tells it of a number: its cell, or refusal 7.
fn note_number<N: Arithmetic>(
    table: &mut Table<'_, '_, '_>,
    place: usize,
    bytes: &[u8],
) -> Result<u16, Fault>
    ensures kept { Keeps table.old table.new }
    ensures told { NumberNoted N.Arithmetic.words table.old table.new place bytes.now result }
{
    let index = table.note_number::<N>(spelling(place, bytes))?;
    Ok(cell_or_address(table, index))
}

// Tells it of a token, a name in this role: what it refers to. A token that is neither a name nor a number refers to nothing, which is 0:
// no action reads it then.
pub fn note<N: Arithmetic>(
    table: &mut Table<'_, '_, '_>,
    role: Role,
    lexeme: Lexeme<'_>,
) -> Result<u16, Fault>
    ensures kept { Keeps table.old table.new }
    ensures told { TokenNoted N.Arithmetic.words table.old table.new role lexeme.entry.offset (meant lexeme.entry.token) result }
{
    match lexeme.token {
        Token::Name(bytes) => note_name(table, role, lexeme.offset, bytes),
        Token::Number(bytes) => note_number::<N>(table, lexeme.offset, bytes),
        _ => Ok(0),
    }
}

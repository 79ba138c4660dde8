// What an entry says of a name, and which refusal stands at a name, by its entry.
ghost use Rattle.std.specs.Prelude.{◌≡◌, ◌<◌, ◌&&◌, nat_le, nat_lt};
ghost use Rattle.std.specs.Result.{result_err};
ghost use Rattle.limits.specs.Rules.{name_limit, cell_limit};
ghost use Rattle.symbols.specs.Entries.{meant};
ghost use Rattle.symbols.specs.Table.{is_named, is_pending, known_refusal, room_refusal};

use crate::kinds::{Role, Spelling, Symbol};
use fault::Refusal;

// The most bytes of a name, cells for variables and numbers, and labels.
const NAME: u16 = 32;

const CELLS: u16 = 446;

const LABELS: u16 = 256;

// The address of a label that stands before no command yet.
// A number and no Option: entries stand in memory that the caller lends, and what they hold is settled to the number.
pub const PENDING: u16 = 65535;

// Whether all cells for variables and numbers are in use.
pub fn is_full(celled: u16) -> bool
    ensures { result ≡ nat_le cell_limit celled }
{
    celled >= CELLS
}

// Whether a name is too long.
pub fn is_long(spelling: Spelling) -> bool
    ensures { result ≡ nat_lt name_limit spelling.length }
{
    spelling.length > NAME
}

// Whether an entry has the name that stands at a place. Kind and length are compared before the bytes.
pub fn is_named(text: &[u8], spelling: Spelling, s: Symbol) -> bool
    ensures { result ≡ is_named text.now spelling s }
{
    s.kind.has_name()
        && s.spelling.length == spelling.length
        && s.spelling.bytes(text) == spelling.bytes(text)
}

// Refuses a name that has an entry, if it may not be used so.
pub fn check_known(role: Role, s: Symbol) -> Result<(), Refusal>
    ensures { result_err result ≡ known_refusal (meant role) s }
{
    let label = s.kind.is_label();
    if role.is_definition() && label && s.at != PENDING {
        return Err(Refusal::DuplicateLabel);
    }
    if role.is_label() != label {
        return Err(Refusal::MixedKind);
    }
    Ok(())
}

// Refuses a name that has none, if there are too many of its kind.
pub fn check_room(role: Role, celled: u16, labels: u16) -> Result<(), Refusal>
    ensures { result_err result ≡ room_refusal (meant role) celled labels }
{
    if role.is_label() {
        if labels >= LABELS {
            return Err(Refusal::TooManyLabels);
        }
    } else if is_full(celled) {
        return Err(Refusal::TooManyCells);
    }
    Ok(())
}

// Whether an entry is that of a label that stands before no command yet.
pub fn is_pending(s: Symbol) -> bool
    ensures { result ≡ is_pending s }
{
    s.kind.is_label() && s.at == PENDING
}

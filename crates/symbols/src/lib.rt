// The symbol table of a one-pass translator, over memory that the caller lends. It is told one use of a name or a number
// after another, and answers the entry, or the refusal that stands at the use. It knows nothing of grammar or code.
#![tactic(auto)]

ghost use Rattle.std.specs.Prelude.{◌≡◌, ◌+◌, ◌<◌, true, false, ◌&&◌, Some, None, slice_set};
ghost use Rattle.std.specs.Fn.{FnReturnsAt};
ghost use Rattle.std.specs.Option.{option_map};
ghost use Rattle.std.specs.Result.{result_err};
ghost use Rattle.limits.specs.Uses.{is_label};
ghost use Rattle.limits.specs.Rules.{cell_limit, label_limit};
ghost use Rattle.limits.specs.Symbols.{first_cell};
ghost use Rattle.symbols.specs.Entries.{meant};
ghost use Rattle.symbols.specs.Table.{size, is_named, is_pending, is_valued, is_short, room_refusal, fault_at, FoundBy, Found, Becomes, Keeps, Answers, NameTold, DigitsTold, NoDigitsTold, NumberTold, Fresh, EntryRead, UseRead, UnmetRead, AddsCell, AddsLabel, AddsName, first_address, PlacesLabel, cell_symbol, label_symbol};

mod entries;
pub mod kinds;
pub mod table;
pub mod theorem;

use arithmetic::Arithmetic;
use entries::{PENDING, check_known, check_room, is_full, is_long, is_named, is_pending};
use fault::{Fault, Refusal};
use kinds::{Kind, Role, Spelling, Symbol};
use table::Table;
use token::number::number_word;

// The first cell after the temporaries.
const FIRST: u16 = 66;

// A refusal at a place of the text.
fn fault_at(refusal: Refusal, place: u16) -> Fault
    ensures { result ≡ fault_at place refusal }
{
    Fault {
        refusal,
        place: place as usize,
    }
}

// What a check found, at a place of the text.
fn found_at(check: Result<(), Refusal>, place: u16) -> Result<(), Fault>
    ensures { result_err result ≡ option_map (fault_at place) (result_err check) }
{
    check.map_err(|refusal| fault_at(refusal, place))
}

impl<'s, 'c, 't> Table<'s, 'c, 't> {
    // An empty table. Memory for 702 symbols and 512 cells is enough for every text; nothing of it is written yet.
    pub fn new(symbols: &'s mut [Symbol], cells: &'c mut [i32], text: &'t [u8]) -> Table<'s, 'c, 't>
        ensures symbols { (result.symbols.ghost_name ≡ symbols.entry.ghost_name) × (result.symbols.now ≡ symbols.old) }
        ensures cells { (result.cells.ghost_name ≡ cells.entry.ghost_name) × (result.cells.now ≡ cells.old) }
        ensures text { result.text ≡ text.entry }
        ensures empty { (result.celled ≡ 0) × (result.labels ≡ 0) }
        ensures fresh { Fresh result }
    {
        Table {
            symbols,
            cells,
            text,
            celled: 0,
            labels: 0,
        }
    }

    // How many entries are in use.
    pub fn len(&self) -> u16
        ensures { result ≡ size self.now }
    {
        self.celled + self.labels
    }

    // How many cells are in use, the temporaries included.
    pub fn cells_used(&self) -> u16
        ensures { result ≡ first_cell + self.now.celled }
    {
        FIRST + self.celled
    }

    // The entry at an index, if it is in use.
    pub fn symbol(&self, index: u16) -> Option<Symbol>
        ensures entry { EntryRead self.now index result }
        ensures describes { UseRead self.now index result }
    {
        self.symbols[..self.len() as usize]
            .get(index as usize)
            .copied()
    }

    // The place of the earliest mention of a label that stands before no command.
    pub fn first_pending(&self) -> Option<usize>
        ensures { UnmetRead self.now result }
    {
        let index = self.find_pending()?;
        Some(self.symbols[index as usize].spelling.place as usize)
    }

    // Tells the table that a name stands at a place. It answers the index of the name's entry, or the lowest of the refusals
    // 4 to 8 that stands at the name.
    #[tactic(auto, using(crate::proofs::Noting::keeps_name))]
    pub fn note_name(&mut self, role: Role, spelling: Spelling) -> Result<u16, Fault>
        ensures kept { Keeps self.old self.new }
        ensures answers { Answers self.old self.new result }
        ensures told { NameTold self.old self.new role spelling result }
    {
        let place = spelling.place;
        if is_long(spelling) {
            return Err(fault_at(Refusal::LongName, place));
        }
        match self.find_name(spelling) {
            Some(index) => {
                let symbol = self.symbols[index as usize];
                found_at(check_known(role, symbol), place)?;
                if let Role::Definition(address) = role {
                    self.place_label(index, address);
                }
                Ok(index)
            }
            None => {
                found_at(check_room(role, self.celled, self.labels), place)?;
                if self.is_short(role.is_label()) {
                    return Err(fault_at(Refusal::ShortMemory, 0));
                }
                Ok(self.add_name(role, spelling))
            }
        }
    }

    // Tells the table that a number stands at a place: the index of the entry of its word, or refusal 7.
    pub fn note_number<N: Arithmetic>(&mut self, spelling: Spelling) -> Result<u16, Fault>
        ensures kept { Keeps self.old self.new }
        ensures answers { Answers self.old self.new result }
        ensures told { DigitsTold N.Arithmetic.words self.old self.new spelling result }
        ensures other { NoDigitsTold self.old spelling result }
    {
        match number_word::<N>(spelling.bytes(self.text)) {
            Some(word) => self.note_word(spelling, word),
            None => Err(fault_at(Refusal::NoProgram, spelling.place)),
        }
    }

    // The same, of a number with this word.
    #[tactic(auto, using(crate::proofs::Noting::keeps_cell))]
    fn note_word(&mut self, spelling: Spelling, word: i32) -> Result<u16, Fault>
        ensures kept { Keeps self.old self.new }
        ensures answers { Answers self.old self.new result }
        ensures told { NumberTold self.old self.new spelling word result }
    {
        if let Some(index) = self.find_number(word) {
            return Ok(index);
        }
        if is_full(self.celled) {
            return Err(fault_at(Refusal::TooManyCells, spelling.place));
        }
        if self.is_short(false) {
            return Err(fault_at(Refusal::ShortMemory, 0));
        }
        Ok(self.add_cell(Kind::Number, spelling, word))
    }

    // The index of the first entry that passes a test, if one does.
    fn find<F: Fn(&Symbol) -> bool>(&self, test: F) -> Option<u16>
        requires { F.IsAlwaysCallable test }
        ensures { FoundBy (FnReturnsAt F.Fn test) self.now.symbols.now (size self.now) result }
    {
        let index = self.symbols[..self.len() as usize].iter().position(test)?;
        Some(index as u16)
    }

    // The first entry of a label that stands before no command yet.
    fn find_pending(&self) -> Option<u16>
        ensures { Found is_pending self.now.symbols.now (size self.now) result }
    {
        self.find(|s| is_pending(*s))
    }

    // The entry of the name that stands at a place.
    fn find_name(&self, spelling: Spelling) -> Option<u16>
        ensures { Found (is_named self.now.text.now spelling) self.now.symbols.now (size self.now) result }
    {
        self.find(|s| is_named(self.text, spelling, *s))
    }

    // Whether an entry is that of a number whose cell holds a word.
    fn is_valued(&self, word: i32, s: Symbol) -> bool
        ensures { result ≡ is_valued self.now.cells.now word s }
    {
        s.kind.is_number() && self.cells.get(s.at as usize) == Some(&word)
    }

    // The entry of a number, by its word.
    fn find_number(&self, word: i32) -> Option<u16>
        ensures { Found (is_valued self.now.cells.now word) self.now.symbols.now (size self.now) result }
    {
        self.find(|s| self.is_valued(word, *s))
    }

    // Whether memory lacks for one symbol more, a label or one with a cell. That it does not is asked by the functions that enter one, and is
    // no invariant: it depends on the kind of symbol, and holds of no full table.
    fn is_short(&self, label: bool) -> bool
        ensures { result ≡ is_short label self.now }
    {
        self.len() as usize >= self.symbols.len()
            || (!label && self.cells_used() as usize >= self.cells.len())
    }

    // Enters a symbol that has a cell, with what the cell holds at first.
    fn add_cell(&mut self, kind: Kind, spelling: Spelling, word: i32) -> u16
        requires few { self.old.celled < cell_limit }
        requires room { is_short false self.old ≡ false }
        ensures index { result ≡ size self.old }
        ensures after { AddsCell self.old self.new (cell_symbol kind spelling self.old.celled) word }
    {
        let at = self.cells_used();
        self.cells[at as usize] = word;
        let index = self.write(Symbol { kind, spelling, at });
        self.celled += 1;
        index
    }

    // Enters a label, at an address.
    fn add_label(&mut self, spelling: Spelling, at: u16) -> u16
        requires few { self.old.labels < label_limit }
        requires room { is_short true self.old ≡ false }
        ensures index { result ≡ size self.old }
        ensures after { AddsLabel self.old self.new (label_symbol spelling at) }
    {
        let index = self.write(Symbol {
            kind: Kind::Label,
            spelling,
            at,
        });
        self.labels += 1;
        index
    }

    // Writes an entry behind those in use; the caller counts it.
    fn write(&mut self, symbol: Symbol) -> u16
        requires room { is_short true self.old ≡ false }
        ensures index { result ≡ size self.old }
        ensures after { Becomes self.old self.new (slice_set self.old.symbols.now (size self.old) symbol) self.old.cells.now self.old.celled self.old.labels }
    {
        let index = self.len();
        self.symbols[index as usize] = symbol;
        index
    }

    // Enters a name that has no entry.
    fn add_name(&mut self, role: Role, spelling: Spelling) -> u16
        requires few { room_refusal (meant role) self.old.celled self.old.labels ≡ None }
        requires room { is_short (is_label (meant role)) self.old ≡ false }
        ensures index { result ≡ size self.old }
        ensures after { AddsName self.old self.new (meant role) spelling (first_address role) }
    {
        match role {
            Role::Variable => self.add_cell(Kind::Variable, spelling, 0),
            Role::Definition(address) => self.add_label(spelling, address),
            Role::Target | Role::Listed => self.add_label(spelling, PENDING),
        }
    }

    // Gives a label its address.
    fn place_label(&mut self, index: u16, address: u16)
        requires { index < size self.old }
        ensures { PlacesLabel self.old self.new index address }
    {
        self.symbols[index as usize].at = address;
    }
}

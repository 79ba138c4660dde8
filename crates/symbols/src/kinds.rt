// What the table holds, and how a name is used.
ghost use Rattle.std.specs.Prelude.{◌≡◌};
ghost use Rattle.limits.specs.Uses.{is_definition, is_listed, is_label};
ghost use Rattle.symbols.specs.Entries.{kind_number, blank, meant, part};
ghost use Rattle.symbols.specs.Table.{has_name, of_label, of_number};

// What a symbol is. Memory that holds none is blank, which is a kind with the number 0 and no Option: the caller lends it, and what it
// holds is settled to the number.
#[derive(Clone, Copy, PartialEq, Eq, Debug)]
pub enum Kind {
    Blank,
    Variable,
    Number,
    Label,
}

impl Kind {
    // The number by which a kind is shown.
    pub fn number(self) -> u8
        ensures { result ≡ kind_number self }
    {
        self as u8
    }

    // Whether an entry of this kind has a name: it is that of a variable or a label.
    pub(crate) fn has_name(self) -> bool
        ensures { result ≡ has_name self }
    {
        matches!(self, Kind::Variable | Kind::Label)
    }

    // Whether an entry of this kind is that of a label.
    pub(crate) fn is_label(self) -> bool
        ensures { result ≡ of_label self }
    {
        matches!(self, Kind::Label)
    }

    // Whether an entry of this kind is that of a number.
    pub(crate) fn is_number(self) -> bool
        ensures { result ≡ of_number self }
    {
        matches!(self, Kind::Number)
    }
}

// Where a name or a number is spelled in the text: the place of its first byte, and how many it has.
#[derive(Clone, Copy, PartialEq, Eq, Debug)]
pub struct Spelling {
    pub place: u16,
    pub length: u16,
}

impl Spelling {
    // Its bytes, as far as the text has them.
    pub(crate) fn bytes<'t>(self, text: &'t [u8]) -> &'t [u8]
        ensures { result.now ≡ part text.now self }
    {
        let start = (self.place as usize).min(text.len());
        let rest = &text[start..];
        &rest[..(self.length as usize).min(rest.len())]
    }
}

// An entry: a symbol's kind, its first spelling in the text, and its cell or, of a label, its address.
// A label that stands before no command yet is pending: its address is 65,535.
#[derive(Clone, Copy, PartialEq, Eq, Debug)]
pub struct Symbol {
    pub kind: Kind,
    pub spelling: Spelling,
    pub at: u16,
}

impl Symbol {
    // The entry of memory in which no symbol stands. It is `blank` and no Default, as the name says what such an entry is.
    pub fn blank() -> Symbol
        ensures { result ≡ blank }
    {
        Symbol {
            kind: Kind::Blank,
            spelling: Spelling {
                place: 0,
                length: 0,
            },
            at: 0,
        }
    }
}

// How a name is used: as a label before a command, after GO TO or in a list after OF, or as a variable.
// A label before a command is given the command's address.
#[derive(Clone, Copy, PartialEq, Eq, Debug)]
pub enum Role {
    Definition(u16),
    Target,
    Listed,
    Variable,
}

impl Role {
    // Whether the name stands before a command, as its label.
    pub fn is_definition(self) -> bool
        ensures { result ≡ is_definition (meant self) }
    {
        matches!(self, Role::Definition(_))
    }

    // Whether the name is a label in a list after OF.
    pub fn is_listed(self) -> bool
        ensures { result ≡ is_listed (meant self) }
    {
        matches!(self, Role::Listed)
    }

    // Whether the name is used as a label.
    pub fn is_label(self) -> bool
        ensures { result ≡ is_label (meant self) }
    {
        !matches!(self, Role::Variable)
    }
}

// What the definitions of the table come to.
ghost use Rattle.symbols.specs.Laws.{OfTokens, OfUses, Kept};

// A table that was told all names and numbers of a list of tokens is the table of these tokens.
pub fn table_is_exact()
    ensures { OfTokens }
{}

// Without refusal 702 symbols and 512 cells are enough, each symbol has an index of its own, and a label is pending exactly
// if it stands before no command.
pub fn memory_suffices()
    ensures { OfUses }
{}

// What calls keep of lent memory, they keep one after the other.
pub fn calls_keep()
    ensures { Kept }
{}

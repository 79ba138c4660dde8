// One stack for every kind of entry, over memory that the caller lends. It knows nothing of what it holds.
#![tactic(auto)]

ghost use Rattle.std.specs.Prelude.{◌≡◌, ◌+◌, ◌-◌, ◌<◌, List, [], ◌∷◌, length, if◌then◌else◌, MatchOption, nat_lt, is_ok};
ghost use Rattle.stack.specs.Entries.{entries, room, Keeps};

pub mod stack;

use stack::Stack;

// The answer of a stack that has no room for an entry.
#[derive(Clone, Copy, PartialEq, Eq, Debug)]
pub struct Full;

impl<'a, T: Copy> Stack<'a, T> {
    // An empty stack with room for as many entries as the slice has.
    pub fn new(items: &'a mut [T]) -> Stack<'a, T>
        ensures entries { entries result ≡ [] }
        ensures lent { (result.items.ghost_name ≡ items.entry.ghost_name) × ((result.items.now ≡ items.old) × (result.len ≡ 0)) }
    {
        Stack { items, len: 0 }
    }

    // Puts an entry on top, or refuses where there is no room for it, and then nothing changes.
    pub fn push(&mut self, entry: T) -> Result<(), Full>
        ensures fits { is_ok result ≡ nat_lt (length (entries self.old)) (room self.old) }
        ensures after { entries self.new ≡ (if is_ok result then «entry» ∷ entries self.old else entries self.old) }
        ensures kept { Keeps self.old self.new }
    {
        // Of a place that `get_mut` lends, nothing is known once it is written.
        if self.len >= self.items.len() {
            return Err(Full);
        }
        self.items[self.len] = entry;
        self.len += 1;
        Ok(())
    }

    // Takes the top entry off; `None` where there is none, and then nothing changes.
    pub fn pop(&mut self) -> Option<T>
        ensures cases { MatchOption result ((entries self.old ≡ []) × (entries self.new ≡ [])) (λ x. entries self.old ≡ x ∷ entries self.new) }
        ensures kept { Keeps self.old self.new }
    {
        self.len = self.len.checked_sub(1)?;
        Some(self.items[self.len])
    }

    // The top entry, which stays.
    pub fn top(&self) -> Option<T>
        ensures { MatchOption result (entries self.now ≡ []) (λ x. (rest : List T) × (entries self.now ≡ x ∷ rest)) }
    {
        self.items[..self.len].last().copied()
    }

    // Takes all entries off.
    pub fn clear(&mut self)
        ensures after { entries self.new ≡ [] }
        ensures kept { Keeps self.old self.new }
    {
        self.len = 0;
    }

    // How many entries there are.
    pub fn depth(&self) -> usize
        ensures { result ≡ length (entries self.now) }
    {
        self.len
    }
}

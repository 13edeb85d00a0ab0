//! A stack over memory that its owner lends: it never grows, and what is taken off leaves the blank behind.
ghost use Rattle.std.specs.Prelude.{◌≡◌, ◌≤◌, ◌↔◌, IsTrue, length};
ghost use Rattle.lent.specs.Stacks.{Cleared, Popped, Pushed};

use super::entry::Entry;

/// The first `len` slots are in use, the latest entry last.
// Lent memory with its count: nothing here takes the heap.
#[derive(Drop)]
pub struct Stack<'a, E> {
    pub(crate) slots: &'a mut [E],
    pub(crate) len: usize,
    ghost within: { len ≤ length slots.now },
}

impl<'a, E: Entry> Stack<'a, E> {
    /// An empty stack; the slots are left as they are.
    pub fn over(slots: &'a mut [E]) -> Stack<'a, E>
        ensures value { (result.slots.now ≡ slots.old) × (result.len ≡ 0) }
        ensures named { result.slots.ghost_name ≡ slots.entry.ghost_name }
    {
        Stack { slots, len: 0 }
    }

    /// How many slots are in use.
    pub fn len(&self) -> usize
        ensures value { result ≡ self.now.len }
    {
        self.len
    }

    /// Whether no slot is in use.
    pub fn is_empty(&self) -> bool
        ensures value { IsTrue result ↔ (self.now.len ≡ 0) }
    {
        self.len == 0
    }

    /// Puts an entry on top, or gives it back where no slot is left.
    pub fn push(&mut self, e: E) -> Result<(), E>
        ensures after { Pushed self.old.slots.now self.old.len e self.new.slots.now self.new.len result }
        ensures named { self.new.slots.ghost_name ≡ self.old.slots.ghost_name }
    {
        if self.len >= self.slots.len() {
            return Err(e);
        }
        self.slots[self.len] = e;
        self.len += 1;
        Ok(())
    }

    /// Takes the latest entry off.
    pub fn pop(&mut self) -> Option<E>
        ensures after { Popped E.BLANK self.old.slots.now self.old.len self.new.slots.now self.new.len result }
        ensures named { self.new.slots.ghost_name ≡ self.old.slots.ghost_name }
    {
        let i = self.len.checked_sub(1)?;
        let e = self.slots[i];
        self.slots[i] = E::BLANK;
        self.len = i;
        Some(e)
    }

    /// Takes off all that is left.
    pub fn clear(&mut self)
        ensures after { Cleared E.BLANK self.old.slots.now self.old.len self.new.slots.now self.new.len }
        ensures named { self.new.slots.ghost_name ≡ self.old.slots.ghost_name }
    {
        while self.pop().is_some() {}
    }
}

#[cfg(test)]
mod tests;

//! The calls on a queue.
ghost use Rattle.std.specs.Prelude.{◌≡◌, ℕ, ◌<◌, [], ◌∷◌, ◌++◌, length, MatchOption, MatchResult};
ghost use Rattle.queue.specs.Entries.{entries, room};

use super::Queue;

impl<'a, T: Copy> Queue<'a, T> {
    /// An empty queue with room for as many entries as there are slots.
    pub fn new(slots: &'a mut [T]) -> Self
        ensures empty { entries result ≡ [] }
        ensures roomy { room result ≡ length slots.old }
    {
        Queue {
            slots,
            head: 0,
            len: 0,
        }
    }

    /// One entry more, behind the others; a full queue hands it back and stays as it is.
    pub fn push(&mut self, entry: T) -> Result<(), T>
        ensures result { MatchResult result (λ _. entries self.new ≡ entries self.old ++ (entry ∷ [])) (λ back. (back ≡ entry) × (entries self.new ≡ entries self.old) × (length (entries self.old) ≡ room self.old)) }
        ensures roomy { room self.new ≡ room self.old }
    {
        let room = self.slots.len();
        if self.len >= room {
            return Err(entry);
        }
        let before_end = room - self.head;
        let at = if self.len < before_end {
            self.head + self.len
        } else {
            self.len - before_end
        };
        self.slots[at] = entry;
        self.len += 1;
        Ok(())
    }

    /// The entry that has waited longest, taken out; none where the queue is empty.
    pub fn pop(&mut self) -> Option<T>
        ensures result { MatchOption result ((entries self.old ≡ []) × (entries self.new ≡ [])) (λ first. entries self.old ≡ first ∷ entries self.new) }
        ensures roomy { room self.new ≡ room self.old }
    {
        if self.len == 0 {
            return None;
        }
        let first = self.slots[self.head];
        let next = self.head + 1;
        self.head = if next < self.slots.len() { next } else { 0 };
        self.len -= 1;
        Some(first)
    }
}

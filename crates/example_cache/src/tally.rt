//! The counts of a client's gets: all, those that found their key, wrong bytes, and refusals of memory.

/// What gets found. Each number stays at 2^64 - 1 once there.
#[derive(Clone, Copy)]
pub struct Tally {
    /// How many gets were made.
    pub gets: u64,
    /// How many gets found their key.
    pub hits: u64,
    /// How many bytes that were found weren't of the key's value.
    pub wrong: u64,
    /// How many were refused memory.
    pub refused: u64,
}

impl Tally {
    /// No get was made.
    pub fn new() -> Tally {
        Tally {
            gets: 0,
            hits: 0,
            wrong: 0,
            refused: 0,
        }
    }

    /// A get found its key, and this many wrong bytes.
    pub fn count_hit(&mut self, wrong: u64) {
        self.gets = self.gets.saturating_add(1);
        self.hits = self.hits.saturating_add(1);
        self.wrong = self.wrong.saturating_add(wrong);
    }

    /// A get found nothing.
    pub fn count_miss(&mut self) {
        self.gets = self.gets.saturating_add(1);
    }

    /// A get was refused memory.
    pub fn count_refused(&mut self) {
        self.gets = self.gets.saturating_add(1);
        self.refused = self.refused.saturating_add(1);
    }

    /// What this tally and another found.
    pub fn and(self, other: Tally) -> Tally {
        Tally {
            gets: self.gets.saturating_add(other.gets),
            hits: self.hits.saturating_add(other.hits),
            wrong: self.wrong.saturating_add(other.wrong),
            refused: self.refused.saturating_add(other.refused),
        }
    }

    /// What was found since an earlier tally.
    pub fn since(self, before: Tally) -> Tally {
        Tally {
            gets: self.gets.saturating_sub(before.gets),
            hits: self.hits.saturating_sub(before.hits),
            wrong: self.wrong.saturating_sub(before.wrong),
            refused: self.refused.saturating_sub(before.refused),
        }
    }
}

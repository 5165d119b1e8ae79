//! The numbers that are counted, and their sums.
ghost use Rattle.std.specs.Prelude.{◌≡◌};
ghost use Rattle.mc_stats.specs.Counts.{call_sum, counts_sum, no_calls, sum_of_counts};

/// How often calls returned what. A call that is refused for its key, or a get, delete or touch that is refused memory, counts nothing. Each
/// number stays at 2^64 - 1 once there.
#[derive(Clone, Copy, Debug, PartialEq, Eq)]
pub struct Counts {
    /// Gets, peeks and looks that found a value. (memcached's `get_hits`)
    pub get_hits: u64,
    /// Those that found none. (memcached's `get_misses`)
    pub get_misses: u64,
    /// Sets that stored their value, on a condition or on none. (own)
    pub sets_stored: u64,
    /// Sets on a condition that wasn't met. (own)
    pub sets_unmet: u64,
    /// Sets that no class has chunks for. (memcached's `store_too_large`)
    pub store_too_large: u64,
    /// Sets that found no chunk, or no memory for the call. (memcached's `store_no_memory`)
    pub store_no_memory: u64,
    /// Deletes that deleted a value. (memcached's `delete_hits`)
    pub delete_hits: u64,
    /// Deletes that found none. (memcached's `delete_misses`)
    pub delete_misses: u64,
    /// Touches that found a value. (memcached's `touch_hits`)
    pub touch_hits: u64,
    /// Touches that found none. (memcached's `touch_misses`)
    pub touch_misses: u64,
}

impl Counts {
    /// The counts before any call.
    pub fn new() -> Counts
        ensures { result ≡ no_calls }
    {
        Counts {
            get_hits: 0,
            get_misses: 0,
            sets_stored: 0,
            sets_unmet: 0,
            store_too_large: 0,
            store_no_memory: 0,
            delete_hits: 0,
            delete_misses: 0,
            touch_hits: 0,
            touch_misses: 0,
        }
    }

    /// The sum of these counts and others, number by number. A number that would pass 2^64 - 1 is that.
    pub fn plus(&self, other: &Counts) -> Counts
        ensures { result ≡ counts_sum self.now other.now }
    {
        Counts {
            get_hits: sum(self.get_hits, other.get_hits),
            get_misses: sum(self.get_misses, other.get_misses),
            sets_stored: sum(self.sets_stored, other.sets_stored),
            sets_unmet: sum(self.sets_unmet, other.sets_unmet),
            store_too_large: sum(self.store_too_large, other.store_too_large),
            store_no_memory: sum(self.store_no_memory, other.store_no_memory),
            delete_hits: sum(self.delete_hits, other.delete_hits),
            delete_misses: sum(self.delete_misses, other.delete_misses),
            touch_hits: sum(self.touch_hits, other.touch_hits),
            touch_misses: sum(self.touch_misses, other.touch_misses),
        }
    }
}

/// The sum of the counts of several workers.
pub fn sum_of(all: &[Counts]) -> Counts
    ensures { result ≡ sum_of_counts all.now }
{
    let mut sum = Counts::new();
    for counts in all {
        sum = sum.plus(counts);
    }
    sum
}

// The sum of two numbers, or 2^64 - 1.
fn sum(a: u64, b: u64) -> u64
    ensures { result ≡ call_sum a b }
{
    a.saturating_add(b)
}

//! The call of a worker that counts the items of the cache by class.
ghost use Rattle.std.specs.Prelude.{◌≡◌, IfOk};
ghost use Rattle.mc_cache.specs.ClassItems.{EachShardCounts, empty_rows};

use crate::cache::{Cache, Worker};
use mc_memory::{Refused, resize};
use mc_shard::{ClassItems, items_of_shard};
use std::alloc::Global;
use std::sync::Wait;

impl Worker {
    ghost use Rattle.std.specs.Prelude.{OnOk};
    ghost use Rattle.mc_cache.specs.Belonging.{BelongsTo};
    ghost use Rattle.mc_cache.specs.ClassItems.{AddsItemsInFirst, CountsCacheByClass, HasRowOfEach, TouchNothing};
    ghost use Rattle.mc_cache.specs.Observers.{shard_count};
    ghost use Rattle.mc_cache.specs.Tending.{SayNothing};

    /// Returns for each class how many items the cache has of it, and how many bytes of keys and values, class 1 first. The worker goes over
    /// the stripes of one shard after another. It lists the hashes of a stripe in one hold of its lock, for which it waits, and then looks each
    /// up as by a get that marks nothing. So the numbers are exact where no other worker stores or deletes meanwhile. An item that went
    /// meanwhile isn't counted, and one that came meanwhile may be. Each number stays at 2^64 - 1 once there. (own, for memcached's
    /// `stats items`)
    pub fn class_items<R: Wait>(
        &mut self,
        rt: &R,
        alloc: Global,
        cache: &Cache,
    ) -> Result<Vec<ClassItems>, Refused>
        requires { BelongsTo cache.now self.old }
        ensures belongs { BelongsTo cache.now self.new }
        ensures rows { IfOk result (λ rows. HasRowOfEach cache.now rows.items) }
        ensures counts { IfOk result (λ rows.
            CountsCacheByClass cache.now rows.items self.old self.new) }
        ensures stores_nothing { SayNothing self.old.hands.items self.new.hands.items }
        ensures untouched { TouchNothing self.old.hands.items self.new.hands.items }
    {
        let mut rows = make_rows(alloc, cache.classes().count())?;
        self.count_items(rt, alloc, cache, rows.as_mut_slice())?;
        Ok(rows)
    }

    // Counts the items of each shard in the rows of their classes.
    fn count_items<R: Wait>(
        &mut self,
        rt: &R,
        alloc: Global,
        cache: &Cache,
        rows: &mut [ClassItems],
    ) -> Result<(), Refused>
        requires { BelongsTo cache.now self.old }
        ensures belongs { BelongsTo cache.now self.new }
        ensures counts { OnOk result (AddsItemsInFirst cache.now (shard_count cache.now)
            rows.old rows.new self.old.hands.items self.new.hands.items) }
        ensures stores_nothing { SayNothing self.old.hands.items self.new.hands.items }
        ensures untouched { TouchNothing self.old.hands.items self.new.hands.items }
    {
        for shard in 0..cache.arenas.len() {
            let arena = &cache.arenas[shard];
            let hand = &mut self.hands[shard];
            items_of_shard(rt, alloc, arena, &cache.hints, hand, rows)?;
        }
        Ok(())
    }
}

// A row for each of n classes, without any item.
fn make_rows(alloc: Global, count: u64) -> Result<Vec<ClassItems>, Refused>
    ensures rows { IfOk result (λ rows. rows.items ≡ empty_rows count) }
{
    let mut rows = Vec::new(alloc);
    resize(&mut rows, count as usize, ClassItems { items: 0, bytes: 0 })?;
    Ok(rows)
}

/// A worked case. The items of two shards are those of the one, and then those of the other.
pub fn worked_shard_items()
    ensures shards { EachShardCounts }
{}

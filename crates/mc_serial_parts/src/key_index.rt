//! The chunk to which each key leads.
ghost use Rattle.std.specs.Prelude.{◌≡◌, nat_eq, [], None, Some, IfOk, OnOk, OnErr};
ghost use Rattle.std.specs.BTreeMap.{is_at};
ghost use Rattle.std.specs.Map.{set_value};
ghost use Rattle.std.specs.Ordering.{nat_cmp};
ghost use Rattle.mc_serial_parts.specs.Leads.{chunk_led_to, IsLed};

use mc_memory::{Refused, reserve_entries};
use mc_pages::ChunkId;
use std::alloc::Global;
use std::collections::HashMap;
use std::marker::Model;

/// The chunk to which each key leads. Contracts see the entries in some order, and state nothing of it.
#[derive(Drop)]
pub struct KeyIndex {
    chunks: HashMap<u64, ChunkId>,
}

impl Model for KeyIndex {
    ghost use Rattle.std.specs.Prelude.{List, ℕ};
    ghost use Rattle.mc_pages.specs.declared.ids.ChunkId.{ChunkId};

    ghost Value = { List (ℕ × ChunkId) };

    ghost view = { λ i. i.chunks.entries };
}

impl KeyIndex {
    /// No key leads anywhere, and there is room for n keys.
    pub fn new(alloc: Global, keys: usize) -> Result<KeyIndex, Refused>
        ensures empty { IfOk result (λ index. index ≡ []) }
    {
        let mut chunks = HashMap::new(alloc);
        reserve_entries(&mut chunks, keys)?;
        Ok(KeyIndex { chunks })
    }

    /// The key's chunk, if it leads to one.
    pub fn get(&self, key: u64) -> Option<ChunkId>
        ensures chunk { result ≡ chunk_led_to self.now key }
    {
        self.chunks.get(&key).copied()
    }

    /// The key leads to this chunk now. Gives the chunk to which it led before.
    pub fn insert(&mut self, key: u64, chunk: ChunkId) -> Result<Option<ChunkId>, Refused>
        ensures before { IfOk result (λ before. before ≡ chunk_led_to self.old key) }
        ensures led { OnOk result (IsLed self.old self.new key (Some chunk)) }
        ensures unchanged { OnErr result (self.new ≡ self.old) }
    {
        reserve_entries(&mut self.chunks, 1)?;
        let before: Result<_, _> = self.chunks.insert(key, chunk);
        Ok(before.unwrap())
    }

    /// The key leads nowhere any more. Gives the chunk to which it led.
    pub fn remove(&mut self, key: u64) -> Option<ChunkId>
        ensures chunk { result ≡ chunk_led_to self.old key }
        ensures led { IsLed self.old self.new key None }
    {
        self.chunks.remove(&key)
    }

    /// The key leads to this chunk now, if it led to one.
    pub fn lead(&mut self, key: u64, chunk: ChunkId)
        ensures led { self.new ≡ set_value (is_at (nat_cmp key)) self.old chunk }
    {
        lead_to(&mut self.chunks, key, chunk);
    }
}

/// The key leads to this chunk now, if it led to one.
fn lead_to(chunks: &mut HashMap<u64, ChunkId>, key: u64, chunk: ChunkId)
    ensures led { chunks.new.entries ≡ set_value (nat_eq key) chunks.old.entries chunk }
{
    if let Some(place) = chunks.get_mut(&key) {
        *place = chunk;
    }
}

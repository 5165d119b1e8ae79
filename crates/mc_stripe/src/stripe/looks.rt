//! What a stripe shows of itself.
ghost use Rattle.std.specs.Prelude.{◌≡◌, ◌<◌, ◌^◌, ◌-◌, ◌↔◌, [], length, min, None, IfSome, IsSome, OnErr, OnOk, is_some};
ghost use Rattle.mc_stripe.specs.Entries.{HasEachKeyOnce, by_key};
ghost use Rattle.mc_stripe.specs.Keys.{AddsKeys};
ghost use Rattle.mc_stripe.specs.StripeState.{base_stamps, can_store, key_aside, chunk_and_stamp, history_tail, trimmed_of};
ghost use Rattle.mc_stripe.specs.Legal.{IsLegal};

use super::Stripe;
use crate::history::{Call, Key, Stamp};
use crate::refusal::NoMemory;
use mc_pages::ChunkId;

impl Stripe {
    /// The key's chunk and stamp, if the index has it.
    pub fn find(&self, key: Key) -> Option<(ChunkId, Stamp)>
        ensures { result ≡ chunk_and_stamp self.now.state key }
    {
        self.places.find(key)
    }

    /// The number of keys that the index has. An entry aside isn't counted. (own)
    pub fn key_count(&self) -> usize
        ensures count { result ≡ length self.now.state.index }
        ensures small { result < 2 ^ 63 }
    {
        self.places.key_count()
    }

    /// A key that the index has, if it has any. It looks at two entries of the table at most, however many there are. (own)
    pub fn first_key(&self) -> Option<Key>
        ensures there { IfSome result (λ key. IsSome (chunk_and_stamp self.now.state key)) }
        ensures none { (result ≡ None) ↔ (self.now.state.index ≡ []) }
    {
        self.places.first_key()
    }

    /// Puts each key of the index behind what is there, once and in no order. That costs as much as the index has keys. Where memory is refused,
    /// nothing is put. (own)
    pub fn keys_into(&self, into: &mut Vec<Key>) -> Result<(), NoMemory>
        ensures keys { OnOk result
            (AddsKeys self.now.state.index into.old.items into.new.items) }
        ensures refused { OnErr result (into.new.items ≡ into.old.items) }
    {
        self.places.keys_into(into)
    }

    /// Whether room was made for one more call.
    pub fn is_ready(&self) -> bool
        ensures { result ≡ self.now.ready }
    {
        self.ready
    }

    /// Whether room was made for one more call and one more entry of the index.
    pub fn can_store(&self) -> bool
        ensures { result ≡ can_store self.now }
    {
        self.is_ready() && self.entry
    }

    /// The key whose entry is aside, if one is.
    pub fn aside(&self) -> Option<Key>
        ensures { result ≡ key_aside self.now.state }
    {
        self.places.key_aside()
    }

    /// The entry that is aside, if one is: its key, and the chunk and the stamp of the item.
    pub fn entry_aside(&self) -> Option<(Key, (ChunkId, Stamp))>
        ensures { result ≡ self.now.state.aside }
    {
        self.places.entry_aside()
    }

    /// The calls that are recorded, the oldest first: all behind those that were trimmed.
    pub fn history(&self) -> &[Call]
        ensures history { result.now ≡ history_tail self.now.state }
        ensures legal { IsLegal self.now.state }
    {
        self.calls.tail()
    }

    /// How many calls aren't recorded, so that the first one that is has this place among all. The greatest number where they are more, which
    /// can be only where no call is recorded.
    pub fn trimmed(&self) -> u64
        ensures trimmed { result ≡ min (trimmed_of self.now.state) (2 ^ 64 - 1) }
        ensures exact { IfSome self.now.state.recorded_from (λ from. result ≡ from) }
    {
        self.calls.trimmed()
    }

    /// Each key's stamp, no key twice, in no order, as the calls left them that aren't recorded any more. None where no call is recorded: then it
    /// is the index.
    pub fn base(&self) -> Option<&[(Key, Stamp)]>
        ensures base { IfSome result (λ base. by_key base.now ≡ base_stamps self.now.state) }
        ensures each_once { IfSome result (λ base. HasEachKeyOnce base.now) }
        ensures some { is_some result ≡ is_some self.now.state.recorded_from }
    {
        self.calls.base()
    }
}

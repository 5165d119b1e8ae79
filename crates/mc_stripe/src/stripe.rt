//! The stripe: the sequential value behind a stripe's lock.
ghost use Rattle.std.specs.Prelude.{◌≡◌, ◌≢◌, ◌≤◌, ◌^◌, true, length, is_some, None, Some, Err, OnOk, OnErr, IsOk, IsSome, IfSome};
ghost use Rattle.mc_stripe.specs.StripeState.{can_store, new_stripe, key_aside, chunk_and_stamp};
ghost use Rattle.mc_stripe.specs.Changes.{after_link, after_unlink, after_got, after_evict, after_lift, after_rescue, after_reserve, after_reserve_call, stripe_after_trim, after_forget, used_up};
ghost use Rattle.mc_stripe.specs.Legal.{IsLegal};

mod looks;

use crate::history::{Call, HandId, Key, Stamp};
use crate::index;
use crate::places::Places;
use crate::recorded::Recorded;
use crate::refusal::{NoMemory, Trim};
use mc_pages::ChunkId;
use std::alloc::Global;
use std::marker::Model;

/// The index and the history of one item lock's part.
///
/// [`Stripe::reserve_call`] makes room for one call, and [`Stripe::reserve`] for one that stores an entry. The calls that need it, and use it
/// up, take no memory and can't fail.
#[derive(Drop)]
pub struct Stripe {
    places: Places,
    calls: Recorded,
    /// The table is known to have room for one more key, whoever made it.
    spare_entry: bool,
    /// Room was made for one more call.
    ready: bool,
    /// Room was made for one more entry of the index.
    entry: bool,
}

impl Model for Stripe {
    ghost use Rattle.mc_stripe.specs.StripeState.{ReadyStripe};

    ghost Value = { ReadyStripe };

    ghost use Rattle.mc_stripe.specs.InOrder.{ready_of, IsStripeInOrder};

    ghost view = { ready_of };

    ghost invariant = { IsStripeInOrder };
}

impl Stripe {
    /// No key was ever stored.
    pub fn new(alloc: Global) -> Stripe
        ensures new { result ≡ new_stripe }
        ensures legal { IsLegal result.state }
    {
        Stripe {
            places: Places::new(alloc),
            calls: Recorded::new(alloc),
            spare_entry: false,
            ready: false,
            entry: false,
        }
    }

    /// Makes room for one more call, which stores no entry. Where there is room, or no call is recorded, it takes no memory and isn't refused.
    pub fn reserve_call(&mut self) -> Result<(), NoMemory>
        ensures reserved { OnOk result (self.new ≡ after_reserve_call self.old) }
        ensures refused { OnErr result (self.new ≡ self.old) }
        ensures succeeds { self.old.ready ≡ true → IsOk result }
        ensures idle { self.old.state.recorded_from ≡ None → IsOk result }
        ensures legal { IsLegal self.new.state }
    {
        let calls = &mut self.calls;
        calls.reserve()?;
        self.ready = true;
        Ok(())
    }

    /// Makes room for one more entry of the index and one more call. Where there is room, it takes no memory.
    pub fn reserve(&mut self) -> Result<(), NoMemory>
        ensures reserved { OnOk result (self.new ≡ after_reserve self.old) }
        ensures refused { OnErr result (self.new ≡ self.old) }
        ensures succeeds { can_store self.old ≡ true → IsOk result }
        ensures legal { IsLegal self.new.state }
    {
        if !self.spare_entry {
            self.places.reserve_one()?;
            self.spare_entry = true;
        }
        self.calls.reserve()?;
        self.ready = true;
        self.entry = true;
        Ok(())
    }

    /// An item is stored under the key, in this chunk. (items.c's `do_item_link`)
    pub fn link(&mut self, hand: HandId, key: Key, chunk: ChunkId, stamp: Stamp)
        requires room { can_store self.old ≡ true }
        requires new { chunk_and_stamp self.old.state key ≡ None }
        requires aside { IfSome (key_aside self.old.state) (λ other. other ≡ key) }
        ensures linked { self.new ≡ used_up (after_link self.old.state hand key chunk stamp) }
        ensures legal { IsLegal self.new.state }
    {
        self.spare_entry = self.places.put(key, (chunk, stamp));
        self.calls.tell(Call::Set(hand, key, stamp));
        self.ready = false;
        self.entry = false;
    }

    /// The calls so far aren't recorded any more, and what they left is copied: each key's stamp, also that of the entry aside. That costs
    /// as much as the index has keys. Where no call is recorded, nothing changes. (own)
    ///
    /// `Full` where the next call's place would pass the greatest number of 64 bits, which is tested first, and `NoMemory` where the room for the
    /// copy was refused: all is as before.
    pub fn trim(&mut self) -> Result<(), Trim>
        ensures trimmed { OnOk result (self.new ≡ record self.old
            { state = stripe_after_trim self.old.state }) }
        ensures refused { OnErr result (self.new ≡ self.old) }
        ensures full { result ≡ Err Trim.Full → (is_some self.old.state.recorded_from ≡ true)
            × (2 ^ 64 ≤ length self.old.state.history) }
        ensures first { is_some self.old.state.recorded_from ≡ true →
            2 ^ 64 ≤ length self.old.state.history → result ≡ Err Trim.Full }
        ensures idle { self.old.state.recorded_from ≡ None → IsOk result }
        ensures legal { IsLegal self.new.state }
    {
        self.calls.trim(&self.places)
    }

    /// No call is recorded from now on, and none of those so far. A later call then needs no room but that of its index entry.
    /// (own)
    pub fn forget(&mut self)
        ensures forgets { self.new ≡ record self.old { state = after_forget self.old.state } }
        ensures legal { IsLegal self.new.state }
    {
        self.calls.forget();
    }

    /// The key is deleted, if it is there. (items.c's `do_item_unlink`)
    pub fn unlink(&mut self, hand: HandId, key: Key)
        requires ready { self.old.ready ≡ true }
        requires aside { IfSome (key_aside self.old.state) (λ other. other ≢ key) }
        ensures unlinked { self.new ≡ used_up (after_unlink self.old.state hand key) }
        ensures legal { IsLegal self.new.state }
    {
        let was_there = self.places.take(key).is_some();
        self.calls.tell(Call::Delete(hand, key, was_there));
        self.ready = false;
        self.entry = false;
    }

    /// The key was looked up, which found this, and its item was got if it has one. It isn't looked up again. (items.c's `do_item_get`)
    pub fn got(&mut self, hand: HandId, key: Key, found: Option<(ChunkId, Stamp)>)
        requires ready { self.old.ready ≡ true }
        requires found { found ≡ chunk_and_stamp self.old.state key }
        requires aside { IfSome (key_aside self.old.state) (λ other. other ≢ key) }
        ensures records { self.new ≡ used_up (after_got self.old.state hand key) }
        ensures legal { IsLegal self.new.state }
    {
        let stamp = index::stamp_of(found);
        self.calls.tell(Call::Get(hand, key, stamp));
        self.ready = false;
        self.entry = false;
    }

    /// The key's item is evicted, to make room. (items.c's `do_item_unlink_nolock`)
    pub fn evict(&mut self, hand: HandId, key: Key)
        requires ready { self.old.ready ≡ true }
        requires there { IsSome (chunk_and_stamp self.old.state key) }
        ensures evicted { self.new ≡ used_up (after_evict self.old.state hand key) }
        ensures legal { IsLegal self.new.state }
    {
        self.places.take(key);
        self.calls.tell(Call::Evict(hand, key));
        self.ready = false;
        self.entry = false;
    }

    /// The key's entry is put aside, until its `link` or `rescue`. (own)
    pub fn lift(&mut self, key: Key)
        requires there { IsSome (chunk_and_stamp self.old.state key) }
        requires none { self.old.state.aside ≡ None }
        ensures lifted { self.new ≡ record self.old { state = after_lift self.old.state key } }
        ensures legal { IsLegal self.new.state }
    {
        let found = self.places.find(key).unwrap();
        self.places.lift(key, found);
    }

    /// The key's entry is put aside, which a look-up found at this place, until its `link` or `rescue`. It isn't looked up again. (own)
    pub fn lift_found(&mut self, key: Key, place: (ChunkId, Stamp))
        requires found { chunk_and_stamp self.old.state key ≡ Some place }
        requires none { self.old.state.aside ≡ None }
        ensures lifted { self.new ≡ record self.old { state = after_lift self.old.state key } }
        ensures legal { IsLegal self.new.state }
    {
        self.places.lift(key, place);
    }

    /// The entry aside comes back, in another chunk and with the stamp that it had. (slabs.c's `slab_rebalance_move`)
    pub fn rescue(&mut self, hand: HandId, key: Key, chunk: ChunkId)
        requires room { can_store self.old ≡ true }
        requires aside { key_aside self.old.state ≡ Some key }
        ensures rescued { self.new ≡ used_up (after_rescue self.old.state hand key chunk) }
        ensures legal { IsLegal self.new.state }
    {
        if let Some((_, (_, stamp))) = self.places.entry_aside() {
            self.places.put_back(key, (chunk, stamp));
            self.calls.tell(Call::Rescue(hand, key));
            self.ready = false;
            self.entry = false;
        }
    }
}

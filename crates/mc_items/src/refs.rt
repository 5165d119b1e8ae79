//! References to items, with what is read of each at once.
ghost use Rattle.std.specs.Prelude.{◌≡◌};
ghost use Rattle.mc_words.specs.hand.Arenas.{IsHandOf, view};
ghost use Rattle.mc_words.specs.hand.Observers.{locks_of, ref_chunk, ref_issue, ref_room};
ghost use Rattle.mc_words.specs.item.Refs.{IsIssueOf, IsRefOf};
ghost use Rattle.mc_items.specs.ItemRefs.{IsItemRef, item_key, item_len, item_stamp};
ghost use Rattle.mc_words.specs.hand.Views.{fields_seen};

use mc_words::{Arena, Hand, ItemFields};

/// A reference to an item, which counts until it is released. Where it is dropped, it counts for good.
#[derive(Drop)]
pub struct Ref {
    pub(crate) reference: mc_words::Ref,
    pub(crate) key: u64,
    pub(crate) stamp: u64,
    pub(crate) len: u64,
}

impl Ref {
    /// The item's key.
    pub fn key(&self) -> u64
        ensures key { result ≡ item_key self.now }
    {
        self.key
    }

    /// The stamp with which it was stored: `2^48` times the number of the hand that stored it, and a count from 1.
    pub fn stamp(&self) -> u64
        ensures stamp { result ≡ item_stamp self.now }
    {
        self.stamp
    }

    /// How many words the item has.
    pub fn len(&self) -> u64
        ensures len { result ≡ item_len self.now }
    {
        self.len
    }
}

// Reads key, stamp and length of the item that is referred to.
pub(crate) fn look_at(arena: &Arena, hand: &mut Hand, reference: mc_words::Ref) -> Ref
    requires arena { IsHandOf arena.now hand.old }
    requires reference { IsRefOf (view hand.old) (ref_chunk reference) (ref_room reference) }
    requires issue { IsIssueOf (view hand.old) (ref_chunk reference) (ref_issue reference) }
    ensures arena { IsHandOf arena.now hand.new }
    ensures locks { locks_of hand.new ≡ locks_of hand.old }
    ensures view { view hand.new ≡ fields_seen (ref_chunk reference) (view hand.old) }
    ensures chunk { result.reference ≡ reference }
    ensures item { IsItemRef (view hand.new) result }
{
    let ItemFields { key, stamp, len } = arena.fields(hand, &reference);
    Ref {
        reference,
        key,
        stamp,
        len,
    }
}

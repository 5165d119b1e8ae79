//! Values that are out of their slots, and chunks, each with the hand that took it.
ghost use Rattle.std.specs.Prelude.{◌≡◌, ◌==◌, if◌then◌else◌};

use crate::lock::boxed_stripe::BoxedStripe;
use mc_pages::{ChunkId, Moving, SharedSlabs, Slabs};
use mc_stripe::Stripe;

/// Pages and lists, while a hand has their lock. Where it is dropped, the lock stays held for good.
#[derive(Drop)]
pub struct SlabsHeld {
    pub(crate) shared: SharedSlabs,
}

impl SlabsHeld {
    /// Pages and lists, to be read.
    pub fn slabs(&self) -> &Slabs
        ensures slabs { result.now.state ≡ self.now.shared }
    {
        self.shared.slabs()
    }

    /// The move that runs, if one does.
    pub fn moving(&self) -> Option<Moving>
        ensures moving { result ≡ self.now.shared.moving }
    {
        self.shared.slabs().moving()
    }
}

/// A stripe's index and history, while a hand has its lock. Where it is dropped, the lock stays held for good.
#[derive(Drop)]
pub struct StripeHeld {
    /// The number of the stripe.
    pub(crate) number: u64,
    pub(crate) stripe: BoxedStripe,
}

impl StripeHeld {
    /// Index and history, to be read.
    pub fn stripe(&self) -> &Stripe
        ensures stripe { result.now ≡ self.now.stripe }
    {
        self.stripe.stripe()
    }
}

/// Another hand has the lock, or this one.
#[derive(Clone, Copy, PartialEq, Eq, Drop)]
pub struct Held;

/// A chunk that was handed out to a hand, which fills it. It has to be spent.
pub struct Fresh {
    pub(crate) chunk: ChunkId,
    /// How many words the chunk has.
    pub(crate) room: u64,
    /// The words that were written first and second: an item's key and stamp.
    pub(crate) key: u64,
    pub(crate) stamp: u64,
}

impl Fresh {
    /// The chunk that the hand fills.
    pub fn chunk(&self) -> ChunkId
        ensures chunk { result ≡ self.now.chunk }
    {
        self.chunk
    }

    /// How many words the chunk has.
    pub fn room(&self) -> u64
        ensures room { result ≡ self.now.room }
    {
        self.room
    }

    // Notes a word that was written: an item's key is the first, and its stamp the second.
    #[inline(always)]
    pub(crate) fn note(&mut self, place: u64, word: u64)
        ensures same { (self.new.chunk ≡ self.old.chunk) × (self.new.room ≡ self.old.room) }
        ensures key { self.new.key ≡ (if place == 0 then word else self.old.key) }
        ensures stamp { self.new.stamp ≡ (if place == 1 then word else self.old.stamp) }
    {
        self.key = if place == 0 { word } else { self.key };
        self.stamp = if place == 1 { word } else { self.stamp };
    }
}

/// The chunk at the head of the free list has the greatest issue number.
#[derive(Clone, Copy, PartialEq, Eq, Drop)]
pub struct WornOut;

/// The header isn't as it was expected.
#[derive(Clone, Copy, PartialEq, Eq, Drop)]
pub struct Moved;

/// The hand holds as many chunks as the call lets it hold.
#[derive(Clone, Copy, PartialEq, Eq, Drop)]
pub struct TooManyRefs;

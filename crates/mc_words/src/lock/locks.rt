//! The locks of an arena: the place of each, and those that a hand has.
ghost use Rattle.std.specs.Prelude.{◌≡◌, ◌<◌, ◌^◌};
ghost use Rattle.mc_words.specs.rule.Layout.{lock_address};
ghost use Rattle.mc_words.specs.lock.Out.{is_behind, is_neither, turned_locks, locks_with_slabs, locks_with_stripe, without_slabs, without_stripe};
ghost use Rattle.mc_words.specs.lock.Slots.{lock_number, slot_of};

use crate::lock::slot::Slot;

/// The distance in words between the words of locks, and to what is around them: 128 bytes, so that no two share a line of a
/// cache, nor one of the pairs of lines that are fetched together. (own)
pub(crate) const WORDS_APART: usize = 16;

/// The distance in slots between the values behind locks: 128 bytes, too. (own)
pub(crate) const SLOTS_APART: usize = 8;

/// The slots from one of them to the next, which are empty.
pub(crate) const SLOTS_BETWEEN: usize = SLOTS_APART - 1;

/// The word of the lock of the slabs.
pub(crate) const SLABS_WORD: usize = WORDS_APART;

const _: () = prove!(WORDS_APART * size_of::<u64>() == 128);

const _: () = prove!(SLOTS_APART * size_of::<Slot>() == 128);

/// A lock: that of the slabs, or of a stripe.
#[derive(Clone, Copy)]
pub enum Lock {
    SlabsLock,
    StripeLock(u64),
}

impl Lock {
    /// The number of the lock.
    pub(crate) fn number(self) -> usize
        requires within_limit { lock_number self < 2 ^ 59 }
        ensures number { result ≡ lock_number self }
    {
        match self {
            Lock::SlabsLock => 0,
            Lock::StripeLock(stripe) => stripe as usize + 1,
        }
    }

    /// The word of the lock.
    pub(crate) fn word(self) -> usize
        requires within_limit { lock_number self < 2 ^ 59 }
        ensures word { result ≡ lock_address (lock_number self) }
    {
        WORDS_APART * (1 + self.number())
    }

    /// The slot of the value behind it.
    pub(crate) fn slot(self) -> usize
        requires within_limit { lock_number self < 2 ^ 59 }
        ensures slot { result ≡ slot_of self }
    {
        SLOTS_APART * self.number()
    }
}

/// The locks of a hand.
#[derive(Clone, Copy)]
pub enum Locks {
    Neither,
    Slabs,
    Stripe(u64),
    /// The slabs lock and this stripe's, of which the slabs lock was taken last.
    SlabsLast(u64),
    /// The slabs lock and this stripe's, of which the stripe's was taken last.
    StripeLast(u64),
}

impl Locks {
    /// These locks with the slabs lock, taken last unless it is among them.
    pub(crate) fn with_slabs(self) -> Locks
        ensures locks { result ≡ locks_with_slabs self }
    {
        match self {
            Locks::Neither | Locks::Slabs => Locks::Slabs,
            Locks::Stripe(stripe) => Locks::SlabsLast(stripe),
            both => both,
        }
    }

    /// These locks without the slabs lock.
    pub(crate) fn without_slabs(self) -> Locks
        ensures locks { result ≡ without_slabs self }
    {
        match self {
            Locks::Neither | Locks::Slabs => Locks::Neither,
            Locks::Stripe(stripe) | Locks::SlabsLast(stripe) | Locks::StripeLast(stripe) => {
                Locks::Stripe(stripe)
            }
        }
    }

    /// The hand has the lock of this stripe, too. Most hands have no other lock, and one test finds these.
    #[inline(always)]
    pub(crate) fn add_stripe(&mut self, stripe: u64)
        ensures locks { self.new ≡ locks_with_stripe stripe self.old }
    {
        match self {
            Locks::Neither => *self = Locks::Stripe(stripe),
            _ => self.add_beside(stripe),
        }
    }

    // Adds the stripe's lock where the hand has others. It isn't inlined, so that the compiler doesn't make one test of all
    // cases.
    #[inline(never)]
    fn add_beside(&mut self, stripe: u64)
        ensures locks { self.new ≡ locks_with_stripe stripe self.old }
    {
        *self = match *self {
            Locks::Neither => Locks::Stripe(stripe),
            Locks::Slabs => Locks::StripeLast(stripe),
            other => other,
        };
    }

    /// These locks without the stripe's lock.
    pub(crate) fn without_stripe(self) -> Locks
        ensures locks { result ≡ without_stripe self }
    {
        match self {
            Locks::Neither | Locks::Stripe(_) => Locks::Neither,
            Locks::Slabs | Locks::SlabsLast(_) | Locks::StripeLast(_) => Locks::Slabs,
        }
    }

    /// Whether the hand has no lock.
    pub(crate) fn is_neither(self) -> bool
        ensures neither { result ≡ is_neither self }
    {
        matches!(self, Locks::Neither)
    }

    /// Whether this lock, which is one of them, was taken before the other.
    pub(crate) fn is_behind(self, lock: Lock) -> bool
        ensures behind { result ≡ is_behind self (lock_number lock) }
    {
        match self {
            Locks::SlabsLast(_) => matches!(lock, Lock::StripeLock(_)),
            Locks::StripeLast(_) => matches!(lock, Lock::SlabsLock),
            _ => false,
        }
    }

    /// The two in the other order.
    pub(crate) fn turned(self) -> Locks
        ensures locks { result ≡ turned_locks self }
    {
        match self {
            Locks::SlabsLast(stripe) => Locks::StripeLast(stripe),
            Locks::StripeLast(stripe) => Locks::SlabsLast(stripe),
            other => other,
        }
    }
}

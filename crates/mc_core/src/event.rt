//! The events: what one hand does at once.
use crate::series::Series;
use mc_pages::{ChunkId, Found};

/// One operation on one word, by one hand.
#[derive(Drop)]
pub struct Event {
    /// The hand that does the operation.
    pub hand: u64,
    /// What the hand changed before, of the values behind the locks that it holds, in this order.
    pub before: Series<Change>,
    pub step: Step,
}

/// The operation of an event.
#[derive(Clone, Copy, PartialEq, Eq)]
pub enum Step {
    /// The slabs lock is taken.
    TakeSlabs,
    /// The lock of a stripe is taken.
    TakeStripe(u64),
    /// The word of the slabs lock is looked at, as by a try that fails.
    MissSlabs,
    /// The word of a stripe's lock is looked at.
    MissStripe(u64),
    /// The slabs lock is given back.
    GiveSlabs,
    /// The lock of a stripe is given back.
    GiveStripe(u64),
    /// A header is looked at, also by an exchange that fails.
    Head(ChunkId),
    /// The next free chunk of the class is handed out.
    Pop(u64),
    /// A free chunk off the moving page is handed out, and takes the place of this one.
    PopOff(ChunkId),
    /// A word of a fresh chunk is written: its place in the chunk, and the word.
    Fill(ChunkId, u64, u64),
    /// A word of a chunk that the hand has a reference to is read.
    Word(ChunkId, u64),
    /// A word of a linked chunk is read under the slabs lock.
    WordHeld(ChunkId, u64),
    /// A fresh chunk is linked, under the key in its first word.
    Link(ChunkId),
    /// The hand gets a reference to the key's item.
    Refer(u64),
    /// The key leads nowhere any more.
    Unlink(u64),
    /// A reference is given up.
    Release(ChunkId),
    /// A fresh chunk is given up.
    Discard(ChunkId),
    /// The item of a linked chunk that nobody holds is taken away.
    Condemn(ChunkId),
    /// A dead chunk goes to its free list.
    PutBack(ChunkId),
    /// A free or dead chunk of the moving page is cleared.
    Clear(ChunkId),
    /// A chunk of a page just given is cut.
    Cut(u64, u64),
    /// The hand gets a reference to a chunk, if it is linked with this issue number.
    Again(ChunkId, u64),
    /// The first hand takes over all that the second was and knows.
    Join(u64, u64),
}

/// A change of a value behind a lock that touches no word.
#[derive(Clone, Copy, PartialEq, Eq)]
pub enum Change {
    /// The class gets a page.
    Grow(u64),
    /// A page begins to move, from the named class or a picked one, to a class or the pool.
    BeginMove(Option<u64>, u64),
    /// The move ends.
    FinishMove,
    /// The chunk goes to the back of its hand-out order.
    Touch(ChunkId),
    /// The automover's mode is set.
    SetAutomove(u64),
    /// The entries of the ledger so far aren't recorded any more.
    TrimLedger,
    /// The mover goes on behind the chunk at its position.
    Passed(Found),
    /// The mover begins its pass anew.
    Wrap,
    /// An eviction of the class is counted.
    Evicted(u64),
    /// A stripe changes, and no call is recorded.
    OfStripe(u64, StripeChange),
    /// A key that isn't there was looked up.
    GotNone(u64),
    /// A key that isn't there was to be deleted.
    DeletedNone(u64),
}

/// A change of a stripe by which no call is recorded.
#[derive(Clone, Copy, PartialEq, Eq)]
pub enum StripeChange {
    /// The stripe gets room for a call that may store an entry.
    Reserve,
    /// The stripe gets room for a call that stores no entry.
    ReserveCall,
    /// The calls so far aren't recorded any more.
    Trim,
    /// No call is recorded from now on, and none of those so far.
    Forget,
}

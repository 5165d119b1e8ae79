//! What workers do with items that are there: they read, hold, give back and touch them.
ghost use Rattle.std.specs.Prelude.{◌≡◌, ◌<◌, true, false, IfOk, IfSome, OnErr, OnOk, Some, length, position, reverse, slice_index_or};
ghost use Rattle.mc_classes.specs.Limits.{most_hands};
ghost use Rattle.std.specs.Borrow.{sem};
ghost use Rattle.std.specs.Option.{is_some, option_copied, option_map};
ghost use Rattle.mc_pages.specs.declared.ids.ChunkId.{ChunkId};
ghost use Rattle.mc_pages.specs.ClassState.{is_chunk};
ghost use Rattle.mc_serial_spec.specs.Holds.{held_by, is_full, without_hold};
ghost use Rattle.mc_serial_spec.specs.Items.{has_key, item_in_chunk, linked_chunk};
ghost use Rattle.mc_serial_spec.specs.Lines.{release_outcome, hold_outcome, last_hold, touch_outcome};
ghost use Rattle.mc_keeper.specs.Calls.{words_of_last_hold, hold_answer, item_words_of_key, EndsAs, MayHold};

use super::Keeper;
use super::noted::note_unheld;
use mc_memory::Refused;
use mc_pages::ChunkId;
use mc_serial_parts::count_unheld;

/// The worker has as many holds as it may have, `MOST_REFS`.
#[derive(Clone, Copy, Debug, PartialEq, Eq)]
pub struct TooManyRefs;

/// Why a worker doesn't hold an item.
#[derive(Debug, PartialEq, Eq, Drop)]
pub enum HoldError {
    /// It has as many holds as it may have.
    TooManyRefs,
    /// Memory ran out.
    NoMemory(Refused),
}

impl Keeper {
    /// The words of the key's item, 8 bytes each, lent. None where the key has no item. A worker with `MOST_REFS` holds is refused
    /// (own, as a reader of the arena holds what it reads). It takes no memory. (items.c's `do_item_get`, without its count)
    pub fn get(&self, worker: u64, key: u64) -> Result<Option<&[u64]>, TooManyRefs>
        requires { worker < most_hands }
        ensures words { IfOk result (λ words. option_copied words
            ≡ item_words_of_key self.now key) }
        ensures free { OnOk result (is_full self.now.holds worker ≡ false) }
        ensures full { OnErr result (is_full self.now.holds worker ≡ true) }
    {
        if self.holds.is_full(worker) {
            return Err(TooManyRefs);
        }
        match self.index.get(key) {
            Some(chunk) => Ok(self.words_at(chunk)),
            None => Ok(None),
        }
    }

    /// The worker holds the key's item, and the call returns whether the key has one. What is held stays as it is until it is
    /// dropped, whatever is done to its key, and no set and no move takes its chunk. (items.c's `item_get`, which counts a
    /// reference)
    ///
    /// Where it is refused, all is as before; memory can run out only where there is an item.
    pub fn hold(&mut self, worker: u64, key: u64) -> Result<bool, HoldError>
        requires { worker < most_hands }
        ensures answer { MayHold (hold_answer self.old worker key) result }
        ensures after { OnOk result (self.new ≡ (hold_outcome self.old worker key).machine) }
        ensures refused { OnErr result (self.new ≡ self.old) }
    {
        if self.holds.is_full(worker) {
            return Err(HoldError::TooManyRefs);
        }
        let Some(chunk) = self.index.get(key) else {
            return Ok(false);
        };
        match self.holds.take(worker, chunk) {
            Ok(()) => Ok(true),
            Err(refused) => Err(HoldError::NoMemory(refused)),
        }
    }

    /// The words of the item that the worker's last hold of the key is of, lent. The last hold is the one that it took last of
    /// its holds of items of this key; the key may lead to another item by now. None where it holds none. It takes no memory.
    /// (own)
    pub fn held_words(&self, worker: u64, key: u64) -> Option<&[u64]>
        requires { worker < most_hands }
        ensures words { option_copied result ≡ words_of_last_hold self.now worker key }
    {
        let (chunk, _) = self.last_hold(worker, key)?;
        self.words_at(chunk)
    }

    /// The worker gives back its last hold of the key, and is lent the words of the item that it held. The last hold is the one
    /// that it took last of its holds of items of this key. None where it holds none, and then all is as before. A sweep puts the
    /// item's chunk back once nobody holds it and no key leads to it. It takes no memory. (items.c's `do_item_remove`; the sweep
    /// is own.)
    pub fn drop(&mut self, worker: u64, key: u64) -> Option<&[u64]>
        requires { worker < most_hands }
        ensures* after { sem 𝓛 (EndsAs self.entry
            (release_outcome self.old worker key (last_hold self.old worker key)).machine) }
        ensures words { option_copied result ≡ words_of_last_hold self.old worker key }
    {
        let (chunk, place) = self.last_hold(worker, key)?;
        let is_linked = self.items.get(chunk)?.is_linked();
        self.give_back(worker, chunk, place, is_linked);
        self.words_at(chunk)
    }

    /// The key's item becomes the youngest of its class, which is evicted last. Returns whether the key has one. It takes no
    /// memory. (items.c's `do_item_update`, without its 60 seconds.) The worker takes no part.
    pub fn touch(&mut self, _worker: u64, key: u64) -> bool
        ensures had { result ≡ is_some (linked_chunk self.old.items key) }
        ensures after { self.new
            ≡ (touch_outcome self.old key (linked_chunk self.old.items key)).machine }
    {
        match self.index.get(key) {
            Some(chunk) => {
                self.slabs.touch(chunk);
                true
            }
            None => false,
        }
    }

    /// The worker gives back its hold of a chunk, which is at this place among its holds. `is_linked` is whether a key leads to
    /// the chunk's item.
    pub(super) fn give_back(&mut self, worker: u64, chunk: ChunkId, place: usize, is_linked: bool)
        requires worker { worker < most_hands }
        requires first { position (λ c. is_chunk c chunk) (held_by self.old.holds worker)
            ≡ Some place }
        requires item { option_map (λ item. item.linked) (item_in_chunk self.old.items chunk)
            ≡ Some is_linked }
        ensures given_back { self.new ≡ record self.old
            { holds = without_hold self.old.holds worker chunk } }
    {
        self.holds.give_back(worker, chunk, place);
        if !is_linked {
            count_unheld(&mut self.dead, &self.holds, &self.slabs, chunk);
            note_unheld(&mut self.hints, &self.holds, &self.slabs, chunk);
        }
    }

    /// The words of the chunk's item.
    fn words_at(&self, chunk: ChunkId) -> Option<&[u64]>
        ensures words { option_copied result ≡ option_map (λ item.
            item.words) (item_in_chunk self.now.items chunk) }
    {
        match self.items.get(chunk) {
            Some(item) => Some(item.words()),
            None => None,
        }
    }

    /// The chunk of the worker's hold of an item of the key that it took last, and the place of that among the worker's holds.
    pub(super) fn last_hold(&self, worker: u64, key: u64) -> Option<(ChunkId, usize)>
        requires { worker < most_hands }
        ensures hold { option_map (λ hold. hold.0) result ≡ last_hold self.now worker key }
        ensures first { IfSome result (λ hold. position (λ c.
            is_chunk c hold.0) (held_by self.now.holds worker) ≡ Some hold.1) }
    {
        match self.place_held(worker, key) {
            Some(place) => Some((hold_at(self.holds.of(worker), place), place)),
            None => None,
        }
    }

    /// The place, among the worker's holds, of its hold of an item of the key that it took last: of all holds the one taken last
    /// is at 0.
    fn place_held(&self, worker: u64, key: u64) -> Option<usize>
        requires { worker < most_hands }
        ensures place { result ≡ position (has_key self.now.items key)
            (held_by self.now.holds worker) }
    {
        self.holds
            .of(worker)
            .iter()
            .rev()
            .position(|chunk| self.has_key(*chunk, key))
    }

    /// Whether the chunk has an item of the key.
    fn has_key(&self, chunk: ChunkId, key: u64) -> bool
        ensures found { result ≡ has_key self.now.items key chunk }
    {
        match self.items.get(chunk) {
            Some(item) => item.key() == key,
            None => false,
        }
    }
}

/// The chunk that has n others behind it.
fn hold_at(chunks: &[ChunkId], behind: usize) -> ChunkId
    requires { behind < length chunks.now }
    ensures chunk { (d : ChunkId) → result ≡ slice_index_or (reverse chunks.now) behind d }
{
    chunks[chunks.len() - 1 - behind]
}

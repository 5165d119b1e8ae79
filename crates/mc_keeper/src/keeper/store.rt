//! Sets and deletes: how items come and go.
ghost use Rattle.std.specs.Prelude.{◌≡◌, ◌≤◌, ◌^◌, Option, None, Some, length, IfOk, OnErr, OnOk, Contains};
ghost use Rattle.std.specs.Option.{is_some};
ghost use Rattle.mc_classes.specs.Classes.{class_of};
ghost use Rattle.mc_pages.specs.ClassState.{first_free};
ghost use Rattle.mc_pages.specs.SlabState.{HasClass, class_at};
ghost use Rattle.mc_pages.specs.Changes.{after_pop};
ghost use Rattle.mc_serial_spec.specs.Items.{linked_chunk, unlinked_items, with_item};
ghost use Rattle.mc_serial_spec.specs.Item.{item_bytes, new_item};
ghost use Rattle.mc_serial_spec.specs.Lines.{delete_outcome, set_outcome_of, set_outcome};
ghost use Rattle.mc_serial_spec.specs.Supply.{asks_for_page, machine_after_supply, supply};
ghost use Rattle.mc_serial_parts.specs.NewWords.{words_of_new};
ghost use Rattle.mc_keeper.specs.Calls.{stored_answer};
ghost use Rattle.mc_keeper.specs.Stages.{set_stages, store_stages};

use super::Keeper;
use super::noted::note_unheld;
use mc_classes::ClassId;
use mc_memory::Refused;
use mc_pages::ChunkId;
use mc_serial_parts::{NewWords, count_unheld};

/// Whether an item was stored.
#[derive(Clone, Copy, Debug, PartialEq, Eq)]
pub enum Stored {
    /// The item was stored: its key leads to it, and to no other item.
    Yes,
    /// The item is larger than a chunk of the last class. All is as before.
    TooLarge,
    /// The item's class has neither a free chunk nor a dead one, no page is left, and somebody holds each of the class's
    /// candidates for an eviction. No item came or went.
    NoRoom,
}

impl Keeper {
    /// Stores an item of these words, 8 bytes each, under the key, in place of the key's old item; whoever holds that holds it
    /// still. With key, stamp and length the item takes 24 + 8 n bytes, and goes into a chunk of the lowest class with as many
    /// bytes. The chunk is a free one, else a dead one, else one of a new page. Else the first candidate for an eviction that
    /// nobody holds is evicted. In mode 2 of the automover an eviction asks for a page. (items.c's `do_item_alloc_pull` and
    /// `do_item_replace`, slabs.c's `slabs automove 2`; that the dead wait for a sweep is own.) The worker takes no part.
    ///
    /// The words are copied once, into the room of the chunk's last item where that suffices, and not at all where they are
    /// too large. Where memory runs out, what was done before stays: dead chunks put back, an item evicted, or the new item
    /// stored and no page asked for.
    pub fn set(&mut self, _worker: u64, key: u64, words: &[u64]) -> Result<Stored, Refused>
        ensures answer { IfOk result (λ answer. answer
            ≡ stored_answer self.old (class_of self.old.table (item_bytes (length words.now)))) }
        ensures after { OnOk result (self.new
            ≡ (set_outcome_of self.old (class_of self.old.table (item_bytes (length words.now))) key
            words.now).machine) }
        ensures refused { OnErr result
            (Contains (set_stages self.old (class_of self.old.table (item_bytes (length words.now)))
            key words.now) self.new) }
    {
        self.set_words(key, NewWords::Copied(words))
    }

    /// Stores an item of these words under the key, and returns whether it did.
    pub(super) fn set_words(&mut self, key: u64, words: NewWords) -> Result<Stored, Refused>
        requires { length (words_of_new words) ≤ 2 ^ 60 }
        ensures answer { IfOk result (λ answer. answer
            ≡ stored_answer self.old (class_of self.old.table
            (item_bytes (length (words_of_new words.entry))))) }
        ensures after { OnOk result (self.new
            ≡ (set_outcome_of self.old (class_of self.old.table
            (item_bytes (length (words_of_new words.entry)))) key
            (words_of_new words.entry)).machine) }
        ensures refused { OnErr result
            (Contains (set_stages self.old (class_of self.old.table
            (item_bytes (length (words_of_new words.entry)))) key (words_of_new words.entry))
            self.new) }
    {
        match self.table.class_for(24 + 8 * words.count()) {
            Some(class) => {
                let stored = self.store(class, key, words)?;
                Ok(if stored { Stored::Yes } else { Stored::NoRoom })
            }
            None => Ok(Stored::TooLarge),
        }
    }

    /// Stores an item of these words in a chunk of the class, in place of the key's old item, and returns whether there was a
    /// chunk. Where there is none, the old item stays, unless it was the one evicted. In mode 2 of the automover an eviction asks
    /// for a page (after memcached's `slabs automove 2`).
    #[tactic(auto, using(mc_serial_spec::proofs::Stocks::store_steps))]
    fn store(&mut self, class: ClassId, key: u64, words: NewWords) -> Result<bool, Refused>
        requires { HasClass self.old.slabs class }
        ensures stored { IfOk result (λ stored. stored ≡ is_some (supply self.old class)) }
        ensures after { OnOk result (self.new
            ≡ (set_outcome (machine_after_supply self.old class) class key
            (words_of_new words.entry) (asks_for_page self.old class)
            (supply self.old class)).machine) }
        ensures refused { OnErr result
            (Contains (store_stages self.old class key (words_of_new words.entry)) self.new) }
    {
        let evicted = self.supply(class)?;
        match self.slabs.first_free(class) {
            Some(chunk) => {
                self.put(class, chunk, key, words)?;
                if !evicted || self.slabs.automove() != 2 {
                    return Ok(true);
                }
                self.ask_for_page(class)?;
                Ok(true)
            }
            None => Ok(false),
        }
    }

    /// Deletes the key's item, and returns whether it had one. The key leads nowhere then. Whoever holds the item holds it still,
    /// and a sweep puts its chunk back once nobody does. It takes no memory. (items.c's `do_item_unlink`; the sweep is own.) The
    /// worker takes no part.
    pub fn delete(&mut self, _worker: u64, key: u64) -> bool
        ensures was { result ≡ is_some (linked_chunk self.old.items key) }
        ensures after { self.new
            ≡ (delete_outcome self.old key (linked_chunk self.old.items key)).machine }
    {
        match self.index.remove(key) {
            Some(chunk) => {
                self.items.unlink(chunk);
                count_unheld(&mut self.dead, &self.holds, &self.slabs, chunk);
                note_unheld(&mut self.hints, &self.holds, &self.slabs, chunk);
                true
            }
            None => false,
        }
    }

    /// Hands out the class's next free chunk and puts a new item into it, to which the key leads. The key's old item is
    /// unlinked. Where memory runs out, nothing is changed.
    fn put(
        &mut self,
        class: ClassId,
        chunk: ChunkId,
        key: u64,
        words: NewWords,
    ) -> Result<(), Refused>
        requires class { HasClass self.old.slabs class }
        requires free { first_free (class_at self.old.slabs class) ≡ Some chunk }
        ensures put { OnOk result (self.new ≡ record self.old {
          slabs = after_pop self.old.slabs class;
          items = with_item (unlinked_items self.old.items key) chunk
              (new_item key (words_of_new words.entry));
        }) }
        ensures refused { OnErr result (self.new ≡ self.old) }
    {
        self.items.store(chunk, key, words)?;
        let before = match self.index.insert(key, chunk) {
            Ok(before) => before,
            Err(refused) => {
                self.items.remove(chunk);
                return Err(refused);
            }
        };
        if let Some(old) = before {
            self.items.unlink(old);
            count_unheld(&mut self.dead, &self.holds, &self.slabs, old);
            note_unheld(&mut self.hints, &self.holds, &self.slabs, old);
        }
        self.slabs.pop(class);
        Ok(())
    }
}

//! Fresh chunks that are filled with items.
ghost use Rattle.std.specs.Prelude.{◌+◌, ◌≡◌, ◌≤◌, length};
ghost use Rattle.mc_core.specs.model.Holdings.{all_known, words_of_item};
ghost use Rattle.mc_words.specs.hand.Arenas.{IsHandOf, view};
ghost use Rattle.mc_words.specs.item.Fresh.{IsFreshOf};
ghost use Rattle.mc_words.specs.item.Items.{item_with, known_words_in};
ghost use Rattle.mc_words.specs.hand.Observers.{fresh_chunk, fresh_key, fresh_room, fresh_stamp, locks_of};
ghost use Rattle.mc_items.specs.FreshChunks.{IsFilledWith, filled_with};
ghost use Rattle.mc_items.specs.Storing.{IsOwnItem};

use mc_words::{Arena, Fresh, Hand};

// Writes an item into a fresh chunk: key, stamp, length, and the words. It takes no lock and no memory. (what items.c's
// `do_item_alloc` and its callers write)
pub(crate) fn fill_item(
    arena: &Arena,
    hand: &mut Hand,
    fresh: &mut Fresh,
    key: u64,
    stamp: u64,
    words: &[u64],
)
    requires arena { IsHandOf arena.now hand.old }
    requires fresh { IsFreshOf (view hand.old) (fresh_chunk fresh.old) (fresh_room fresh.old) }
    requires own { IsOwnItem (view hand.old) (fresh_chunk fresh.old) }
    requires room { 3 + length words.now ≤ (fresh_room fresh.old) }
    ensures arena { IsHandOf arena.now hand.new }
    ensures locks { locks_of hand.new ≡ locks_of hand.old }
    ensures same { (fresh_chunk fresh.new ≡ fresh_chunk fresh.old)
        × (fresh_room fresh.new ≡ fresh_room fresh.old) }
    ensures key { fresh_key fresh.new ≡ key }
    ensures stamp { fresh_stamp fresh.new ≡ stamp }
    ensures filled { view hand.new ≡ filled_with fresh.old key stamp words.now (view hand.old) }
    ensures fresh { IsFreshOf (view hand.new) (fresh_chunk fresh.new) (fresh_room fresh.new) }
    ensures item { IsFilledWith (view hand.new) fresh.new key stamp }
    ensures words { words_of_item (known_words_in (view hand.new) (fresh_chunk fresh.new))
        ≡ all_known (item_with key stamp words.now) }
{
    arena.fill(hand, fresh, 0, key);
    arena.fill(hand, fresh, 1, stamp);
    arena.fill(hand, fresh, 2, words.len() as u64);
    let first = arena.place_to_fill(hand, fresh);
    for place in 0..words.len() {
        arena.fill_from(hand, fresh, first, 3 + place as u64, words[place]);
    }
}

//! Copies of items: the words of a chunk on the moving page are written into another one.
ghost use Rattle.std.specs.Prelude.{◌≡◌, ◌+◌, ◌<◌, ◌≤◌, ◌==◌, if◌then◌else◌, true, IfSome};
ghost use Rattle.mc_pages.specs.SlabState.{class_of_page};
ghost use Rattle.mc_core.specs.model.Looks.{was_linked};
ghost use Rattle.mc_core.specs.model.State.{has_chunk, room_in};
ghost use Rattle.mc_words.specs.hand.Arenas.{IsHandOf, setup_of, view};
ghost use Rattle.mc_words.specs.item.Removal.{key_read};
ghost use Rattle.mc_words.specs.item.Fresh.{IsFreshOf};
ghost use Rattle.mc_words.specs.item.Items.{word_read};
ghost use Rattle.mc_words.specs.hand.Observers.{HasSlabs, fresh_chunk, fresh_key, fresh_room, fresh_stamp, locks_of, slabs_lent};
ghost use Rattle.mc_words.specs.hand.Views.{held_word_seen, word_filled};
ghost use Rattle.mc_mover.specs.Copying.{Copies};

use mc_pages::ChunkId;
use mc_words::{Arena, Fresh, Hand, SlabsHeld};

// Copies the item of a linked chunk into a fresh one of the same class, each word once. (slabs.c's `memcpy` in
// `slab_rebalance_move`)
pub(crate) fn copy_item(
    arena: &Arena,
    hand: &mut Hand,
    held: &SlabsHeld,
    fresh: &mut Fresh,
    chunk: ChunkId,
)
    requires arena { IsHandOf arena.now hand.old }
    requires in_range { has_chunk (setup_of arena.now).table chunk ≡ true }
    requires held { HasSlabs hand.old held.now }
    requires linked { was_linked (view hand.old).row.looks chunk ≡ true }
    requires fresh { IsFreshOf (view hand.old) (fresh_chunk fresh.old) (fresh_room fresh.old) }
    requires room { fresh_room fresh.old ≡ room_in (setup_of arena.now).table
        (class_of_page (slabs_lent held.now) chunk.page) }
    ensures arena { IsHandOf arena.now hand.new }
    ensures locks { locks_of hand.new ≡ locks_of hand.old }
    ensures held { HasSlabs hand.new held.now }
    ensures same { (fresh_chunk fresh.new ≡ fresh_chunk fresh.old)
        × (fresh_room fresh.new ≡ fresh_room fresh.old) }
    ensures copied { Copies chunk (fresh_chunk fresh.old) (fresh_key fresh.new)
        (fresh_stamp fresh.new) (view hand.old) (view hand.new) }
    ensures key { IfSome (key_read (view hand.old) chunk) (λ before.
        (fresh_key fresh.new) ≡ before) }
    ensures fits { IfSome (word_read (view hand.new) chunk 2) (λ count. 3 + count
        ≤ fresh_room fresh.old) }
    ensures fresh { IsFreshOf (view hand.new) (fresh_chunk fresh.new) (fresh_room fresh.new) }
{
    copy_word(arena, hand, held, fresh, chunk, 0);
    copy_word(arena, hand, held, fresh, chunk, 1);
    let words = copy_word(arena, hand, held, fresh, chunk, 2);
    for place in 3..3 + words {
        copy_word(arena, hand, held, fresh, chunk, place);
    }
}

// Copies a word, and gives it.
fn copy_word(
    arena: &Arena,
    hand: &mut Hand,
    held: &SlabsHeld,
    fresh: &mut Fresh,
    chunk: ChunkId,
    place: u64,
) -> u64
    requires arena { IsHandOf arena.now hand.old }
    requires in_range { has_chunk (setup_of arena.now).table chunk ≡ true }
    requires held { HasSlabs hand.old held.now }
    requires linked { was_linked (view hand.old).row.looks chunk ≡ true }
    requires fresh { IsFreshOf (view hand.old) (fresh_chunk fresh.old) (fresh_room fresh.old) }
    requires room { fresh_room fresh.old ≡ room_in (setup_of arena.now).table
        (class_of_page (slabs_lent held.now) chunk.page) }
    requires inside { place < fresh_room fresh.old }
    ensures arena { IsHandOf arena.now hand.new }
    ensures locks { locks_of hand.new ≡ locks_of hand.old }
    ensures held { HasSlabs hand.new held.now }
    ensures linked { was_linked (view hand.new).row.looks chunk ≡ true }
    ensures same { (fresh_chunk fresh.new ≡ fresh_chunk fresh.old)
        × (fresh_room fresh.new ≡ fresh_room fresh.old) }
    ensures key { fresh_key fresh.new ≡ (if place == 0 then result else (fresh_key fresh.old)) }
    ensures stamp { fresh_stamp fresh.new
        ≡ (if place == 1 then result else (fresh_stamp fresh.old)) }
    ensures fits { place ≡ 2 → 3 + result ≤ fresh_room fresh.old }
    ensures again { IfSome (word_read (view hand.old) chunk place) (λ before. result ≡ before) }
    ensures copied { view hand.new ≡ word_filled (fresh_chunk fresh.old) place result
        (held_word_seen chunk place result (view hand.old)) }
    ensures fresh { IsFreshOf (view hand.new) (fresh_chunk fresh.new) (fresh_room fresh.new) }
{
    let word = arena.word_held(hand, held, chunk, place);
    arena.fill(hand, fresh, place, word);
    word
}

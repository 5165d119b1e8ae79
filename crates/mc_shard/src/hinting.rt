//! Gets of items by hints, with no lock.
ghost use Rattle.std.specs.Prelude.{◌≡◌, IfSome, None};
ghost use Rattle.mc_words.specs.hand.Arenas.{setup_of, view};
ghost use Rattle.mc_words.specs.hand.Observers.{hand_number};
ghost use Rattle.mc_items.specs.Calls.{RecordsNoCall};
ghost use Rattle.mc_items.specs.Keeping.{StoresNothing};
ghost use Rattle.mc_shard.specs.Finding.{FindsItem, TriesHint};
ghost use Rattle.mc_shard.specs.Hands.{IsIdleHandOf};
ghost use Rattle.mc_shard.specs.Reading.{LeavesSlabs};

use crate::hints::{HintTable, Look, hint_in, mark_found};
use mc_items::{Ref, again, release};
use mc_words::{Arena, Hand};

/// Gets the hash's item by its hint, with one exchange on the item's header and no lock. None where there is no hint, where its item is gone or of
/// another hash, or where another hand changed the header meanwhile. Then the caller takes the lock. The look changes the mark of an item that it
/// gets. (own)
#[inline(always)]
pub(crate) fn get_hinted(
    arena: &Arena,
    hints: &HintTable,
    hand: &mut Hand,
    hash: u64,
    look: Look,
) -> Option<Ref>
    requires { IsIdleHandOf arena.now hand.old }
    ensures item { IfSome result (λ item. FindsItem arena.now hash item hand.old hand.new) }
    ensures none { result ≡ None → IsIdleHandOf arena.now hand.new }
    ensures tries { result ≡ None → TriesHint hash hand.old hand.new }
    ensures number { hand_number hand.new ≡ hand_number hand.old }
    ensures calls { RecordsNoCall (view hand.old) (view hand.new) }
    ensures stores_nothing { StoresNothing (view hand.old) (view hand.new) }
    ensures slabs { LeavesSlabs (view hand.old) (view hand.new) }
{
    let (place, word) = hints.find(hash)?;
    let hint = hint_in(arena, word)?;
    match again(arena, hand, hint) {
        Ok(item) => {
            if item.key() == hash {
                mark_found(place, word, look);
                Some(item)
            } else {
                release(arena, hand, item);
                None
            }
        }
        Err(_) => None,
    }
}

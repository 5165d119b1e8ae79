//! The two calls that look a key up, so that a test can try both.
ghost use Rattle.std.specs.Prelude.{◌≡◌, true, IfSome};
ghost use Rattle.mc_core.specs.model.State.{has_chunk};
ghost use Rattle.mc_words.specs.hand.Arenas.{setup_of, view};
ghost use Rattle.mc_items.specs.ItemRefs.{IsItemRef, item_chunk};
ghost use Rattle.mc_items.specs.Keeping.{HoldsToo};
ghost use Rattle.mc_words.specs.hand.Ready.{IsReadyHandOf};
ghost use Rattle.testlib_hands.specs.Hands.{HoldsNothing};

use mc_items::{Ref, get, release, try_get};
use mc_stripe::Key;
use mc_words::{Arena, Hand};
use std::sync::Wait;

/// How a key is looked up: by the call that waits, or by that which doesn't.
#[derive(Clone, Copy)]
pub enum Getter {
    Get,
    TryGet,
}

/// Both ways of looking a key up.
pub const GETTERS: [Getter; 2] = [Getter::Get, Getter::TryGet];

/// A reference to the key's item, by the call that doesn't wait. None where there is none, or it was refused.
fn try_item(arena: &Arena, hand: &mut Hand, key: Key) -> Option<Ref>
    requires arena { IsReadyHandOf arena.now hand.old }
    ensures arena { IsReadyHandOf arena.now hand.new }
    ensures item { IfSome result (λ item. IsItemRef (view hand.new) item) }
    ensures in_range { IfSome result (λ item. has_chunk (setup_of arena.now).table (item_chunk item)
        ≡ true) }
    ensures holdings { HoldsToo result (view hand.old) (view hand.new) }
{
    match try_get(arena, hand, key) {
        Ok(found) => found,
        Err(_) => None,
    }
}

/// A reference to the key's item, if it has one. None, too, where it was refused.
pub fn get_by<R: Wait>(
    rt: &R,
    arena: &Arena,
    hand: &mut Hand,
    key: Key,
    getter: Getter,
) -> Option<Ref>
    requires arena { IsReadyHandOf arena.now hand.old }
    ensures arena { IsReadyHandOf arena.now hand.new }
    ensures item { IfSome result (λ item. IsItemRef (view hand.new) item) }
    ensures in_range { IfSome result (λ item. has_chunk (setup_of arena.now).table (item_chunk item)
        ≡ true) }
    ensures holdings { HoldsToo result (view hand.old) (view hand.new) }
{
    match getter {
        Getter::Get => match get(rt, arena, hand, key) {
            Ok(found) => found,
            Err(_) => None,
        },
        Getter::TryGet => try_item(arena, hand, key),
    }
}

/// Whether the key has an item: one gets it, and gives the reference up.
#[tactic(auto, using(crate::proofs::Kept::nothing_left))]
pub fn is_there<R: Wait>(rt: &R, arena: &Arena, hand: &mut Hand, key: Key, getter: Getter) -> bool
    requires arena { IsReadyHandOf arena.now hand.old }
    ensures arena { IsReadyHandOf arena.now hand.new }
    ensures nothing { HoldsNothing (view hand.old) → HoldsNothing (view hand.new) }
{
    let Some(item) = get_by(rt, arena, hand, key, getter) else {
        return false;
    };
    release(arena, hand, item);
    true
}

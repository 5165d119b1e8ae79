//! Hints of items, which lead to them again.
ghost use Rattle.std.specs.Prelude.{◌≡◌, true, IfSome};
ghost use Rattle.mc_core.specs.model.State.{has_chunk};
ghost use Rattle.mc_words.specs.hand.Arenas.{setup_of};
ghost use Rattle.mc_words.specs.hand.Observers.{hint_chunk};
ghost use Rattle.mc_words.specs.hand.Ready.{IsReadyHandOf};

use crate::items::get_key;
use mc_items::{again, hint, release};
use mc_stripe::Key;
use mc_words::{Again, Arena, Hand, Hint};
use std::sync::Wait;

/// A hint of the key's item, whose reference is given up.
pub fn hint_of<R: Wait>(rt: &R, arena: &Arena, hand: &mut Hand, key: Key) -> Option<Hint>
    requires arena { IsReadyHandOf arena.now hand.old }
    ensures arena { IsReadyHandOf arena.now hand.new }
    ensures in_range { IfSome result (λ hint. has_chunk (setup_of arena.now).table (hint_chunk hint)
        ≡ true) }
{
    let item = get_key(rt, arena, hand, key)?;
    let hint = hint(&item);
    release(arena, hand, item);
    Some(hint)
}

/// The hint's refusal, if there is one; else its item is had again, and the reference given up.
pub fn follow(arena: &Arena, hand: &mut Hand, hint: Hint) -> Option<Again>
    requires arena { IsReadyHandOf arena.now hand.old }
    requires in_range { has_chunk (setup_of arena.now).table (hint_chunk hint) ≡ true }
    ensures arena { IsReadyHandOf arena.now hand.new }
{
    match again(arena, hand, hint) {
        Ok(item) => {
            release(arena, hand, item);
            None
        }
        Err(error) => Some(error),
    }
}

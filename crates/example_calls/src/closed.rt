//! The end of an arena, and the promise that holds of it.
ghost use Rattle.example_calls.specs.Closed.{EndsWithPromise};
ghost use Rattle.mc_words.specs.hand.Ready.{IsReadyHandOf};

use mc_items::set;
use mc_words::laws::views_give_headline;
use mc_words::{Arena, Final, Hand};
use std::sync::Wait;

/// Stores an item, if there is room, and closes the arena. The promise holds of the arena's last moment.
pub fn set_and_close<R: Wait>(rt: &R, arena: Arena, hand: Hand, key: u64, words: &[u64]) -> Final
    requires { IsReadyHandOf arena hand }
    ensures { EndsWithPromise result }
{
    let mut hand = hand;
    let _stored = set(rt, &arena, &mut hand, key, words);
    views_give_headline();
    arena.close(hand)
}

//! What remains behind a trim: what two hands stored, and what is recorded of the ledger.
ghost use Rattle.std.specs.Prelude.{◌≡◌, [], Contains, length, slice_get};
ghost use Rattle.mc_pages.specs.Base.{base_pages};
ghost use Rattle.mc_core.specs.past.Past.{StoredItem};
ghost use Rattle.mc_words.specs.hand.Arenas.{IsHandOf, view};
ghost use Rattle.mc_words.specs.hand.Ready.{IsReady, IsReadyHandOf};
ghost use Rattle.mc_words.specs.rule.Joins.{KnowledgeAgrees};

use mc_items::set;
use mc_mover::trim;
use mc_pages::BasePage;
use mc_words::{Arena, Hand};
use std::sync::Wait;

/// One hand stores an item, the calls so far are trimmed, and another hand stores one. Then both become one hand. It has stored
/// what either had stored, and with one stamp nothing but the same words.
pub fn join_behind_a_trim<R: Wait>(
    rt: &R,
    arena: &Arena,
    hand: Hand,
    other: Hand,
    key: u64,
    words: &[u64],
) -> Hand
    requires arena { IsHandOf arena.now hand }
    requires other { IsHandOf arena.now other }
    requires ready { IsReady (view hand) × IsReady (view other) }
    requires none { ((view hand).row.holdings ≡ []) × ((view other).row.holdings ≡ []) }
    ensures arena { IsHandOf arena.now result }
    ensures agree { KnowledgeAgrees (view result).row.knows }
    ensures first { (saying : StoredItem) → Contains (view hand).row.knows.stored saying →
        Contains (view result).row.knows.stored saying }
    ensures second { (saying : StoredItem) → Contains (view other).row.knows.stored saying →
        Contains (view result).row.knows.stored saying }
{
    let mut hand = hand;
    let mut other = other;
    let _ = set(rt, arena, &mut hand, key, words);
    let _ = trim(rt, arena, &mut hand);
    let _ = set(rt, arena, &mut other, key, words);
    arena.join_hands(hand, other)
}

/// Trims the ledger under one hold of the slabs lock, and returns how many of its entries are recorded then: none.
pub fn entries_behind_a_trim<R: Wait>(rt: &R, arena: &Arena, hand: &mut Hand) -> usize
    requires { IsReadyHandOf arena.now hand.old }
    ensures arena { IsHandOf arena.now hand.new }
    ensures none { result ≡ 0 }
{
    let mut held = arena.lock_slabs(rt, hand);
    arena.trim_ledger(hand, &mut held);
    let recorded = held.slabs().ledger().len();
    arena.give_slabs(hand, held);
    recorded
}

/// Trims the ledger, and returns what its entries so far have left of a page: who owns it, and which class got it beyond the
/// limit.
pub fn page_behind_a_trim<R: Wait>(
    rt: &R,
    arena: &Arena,
    hand: &mut Hand,
    page: usize,
) -> Option<BasePage>
    requires { IsReadyHandOf arena.now hand.old }
    ensures arena { IsHandOf arena.now hand.new }
    ensures trimmed { (view hand.new).row.knows.hold.left.trimmed
        ≡ length (view hand.new).row.knows.hold.left.ledger }
    ensures base { result ≡ slice_get (base_pages (view hand.new).row.knows.hold.left) page }
{
    let mut held = arena.lock_slabs(rt, hand);
    arena.trim_ledger(hand, &mut held);
    let left = page_in(held.slabs().base(), page);
    arena.give_slabs(hand, held);
    left
}

// What the base has at the page's place.
fn page_in(base: &[BasePage], page: usize) -> Option<BasePage>
    ensures { result ≡ slice_get base.now page }
{
    if page < base.len() {
        return Some(base[page]);
    }
    None
}

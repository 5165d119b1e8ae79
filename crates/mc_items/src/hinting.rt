//! References to items that are had again by hints, with no lock.
ghost use Rattle.std.specs.Prelude.{◌↔◌, ◌≡◌, ◌≤◌, Err, IfOk, OnErr, Some, length, true};
ghost use Rattle.mc_classes.specs.Limits.{most_refs};
ghost use Rattle.mc_core.specs.model.State.{has_chunk};
ghost use Rattle.mc_words.specs.hand.Arenas.{IsHandOf, setup_of, view};
ghost use Rattle.mc_words.specs.item.Again.{FindsContended, FindsGone};
ghost use Rattle.mc_words.specs.item.Items.{held_item};
ghost use Rattle.mc_words.specs.hand.Observers.{hint_chunk, hint_issue};
ghost use Rattle.mc_words.specs.hand.Ready.{IsReady, StaysReady};
ghost use Rattle.mc_words.specs.item.Refs.{HoldsTheSame, KeepsRefs};
ghost use Rattle.mc_items.specs.ItemRefs.{IsItemRef, item_chunk, item_issue};
ghost use Rattle.mc_items.specs.Keeping.{HoldsToo, HasStoredWords, StoresNothing};
ghost use Rattle.mc_items.specs.OnKeys.{GetsByHint, IsAsKnown};
ghost use Rattle.mc_items.specs.Current.{GetsCurrent};

use crate::refs::{Ref, look_at};
use mc_words::{Again, Arena, Hand, Hint};

/// A hint of the item, by which it can be had again after the reference was released: its chunk, and the number of times that it
/// was handed out. (own)
pub fn hint(item: &Ref) -> Hint
    ensures chunk { hint_chunk result ≡ item_chunk item.now }
    ensures issue { hint_issue result ≡ item_issue item.now }
{
    item.reference.hint()
}

/// Gets a reference to the item of a hint, if it is there still, by one exchange and no lock. `Gone` where it was deleted or evicted,
/// or stands in another chunk; `Contended` where it is there, but others came between, so that one may try again; `TooManyRefs` at
/// `MOST_REFS` chunks of the hand, which is tested first. Nothing is changed then. (own)
#[inline(always)]
pub fn again(arena: &Arena, hand: &mut Hand, hint: Hint) -> Result<Ref, Again>
    requires arena { IsHandOf arena.now hand.old }
    requires ready { IsReady (view hand.old) }
    requires in_range { has_chunk (setup_of arena.now).table (hint_chunk hint) ≡ true }
    ensures hinted { IfOk result (λ item. (item_chunk item ≡ hint_chunk hint)
        × (item_issue item ≡ hint_issue hint)) }
    ensures gets { IfOk result (λ item. GetsByHint hint item (view hand.old) (view hand.new)) }
    ensures current { IfOk result (λ item. GetsCurrent hint item (view hand.old) (view hand.new)) }
    ensures item { IfOk result (λ item. IsItemRef (view hand.new) item) }
    ensures stores_words { IfOk result (HasStoredWords (view hand.new)) }
    ensures known { IfOk result (λ item. IsAsKnown (view hand.old) hint
        (held_item (view hand.new) (item_chunk item))) }
    ensures gone { result ≡ Err Again.Gone →
        FindsGone (view hand.old) (hint_chunk hint) (hint_issue hint) (view hand.new) }
    ensures contended { result ≡ Err Again.Contended →
        FindsContended (view hand.old) (hint_chunk hint) (hint_issue hint) (view hand.new) }
    ensures at_limit { (result ≡ Err Again.TooManyRefs)
        ↔ (most_refs ≤ length (view hand.old).row.holdings) }
    ensures refused { result ≡ Err Again.TooManyRefs → view hand.new ≡ view hand.old }
    ensures holdings { IfOk result (λ item. HoldsToo (Some item) (view hand.old) (view hand.new)) }
    ensures no_more { OnErr result (HoldsTheSame (view hand.old) (view hand.new)) }
    ensures keeps { KeepsRefs (view hand.old) (view hand.new) }
    ensures stores_nothing { StoresNothing (view hand.old) (view hand.new) }
    ensures hand { StaysReady arena.now hand.old hand.new }
{
    match arena.again(hand, hint) {
        Ok(reference) => Ok(look_at(arena, hand, reference)),
        Err(error) => Err(error),
    }
}

//! Histories that are trimmed, or forgotten: of each stripe in turn, from the first on. And a ledger that is trimmed.
ghost use Rattle.std.specs.List.{range_with_len};
ghost use Rattle.std.specs.Prelude.{◌≡◌, ◌<◌, ℕ, Err, OnErr, OnOk};
ghost use Rattle.mc_core.specs.declared.event.StripeChange.TheVariants.{Forget, Trim as Trimmed};
ghost use Rattle.mc_words.specs.hand.Arenas.{IsHandOf, setup_of, view};
ghost use Rattle.mc_words.specs.lock.Doing.{HoldsStripe};
ghost use Rattle.mc_words.specs.hand.Observers.{hand_number};
ghost use Rattle.mc_words.specs.hand.Ready.{IsReady, StaysReady};
ghost use Rattle.mc_words.specs.item.Refs.{KeepsHoldings};
ghost use Rattle.mc_mover.specs.Acting.{ActsOnceByNumber};
ghost use Rattle.mc_mover.specs.Recording.{Changes, ChangesEach, FindsStripeFull, FindsNotFull, GivesBackChanged, GivesBackUpToOne, Leaves, StopsTrimming, TakesNotFull, TrimsAll, TrimsLedger};

use mc_stripe::Trim;
use mc_words::{Arena, Hand};
use std::sync::Wait;

/// Trims what is recorded of the past: the history of each stripe, from 0 on, one at a time, and then the ledger. The calls and
/// entries so far aren't recorded any more, and take no memory but what they left, each key's stamp and each page's owner. It
/// waits for each lock. It ends at the first refusal, whose stripe is as before; what was trimmed stays trimmed, and the ledger
/// isn't then. The refusal is `Full` exactly where that stripe records and the place of its next call would pass the greatest
/// number of 64 bits. This is tested before memory is asked for; no stripe that was trimmed was so. (own)
pub fn trim<R: Wait>(rt: &R, arena: &Arena, hand: &mut Hand) -> Result<(), Trim>
    requires arena { IsHandOf arena.now hand.old }
    requires ready { IsReady (view hand.old) }
    ensures trims { OnOk result (TrimsAll (hand_number hand.old) (setup_of arena.now).config.stripes
        (view hand.old) (view hand.new)) }
    ensures stops { OnErr result (StopsTrimming (hand_number hand.old) Leaves (view hand.old)
        (view hand.new)) }
    ensures given { OnOk result ((stripe : ℕ) → stripe < (setup_of arena.now).config.stripes →
        GivesBackChanged Trimmed (view hand.new) stripe) }
    ensures same { OnErr result (GivesBackUpToOne (view hand.new)) }
    ensures full { result ≡ Err Trim.Full →
        StopsTrimming (hand_number hand.old) FindsStripeFull (view hand.old) (view hand.new) }
    ensures first { result ≡ Err (Trim.NoMemory tt)
        → StopsTrimming (hand_number hand.old) FindsNotFull (view hand.old) (view hand.new) }
    ensures stores_nothing { (view hand.new).row.knows.stored ≡ (view hand.old).row.knows.stored }
    ensures records_nothing { (view hand.new).row.knows.mine ≡ (view hand.old).row.knows.mine }
    ensures holdings { KeepsHoldings (view hand.old) (view hand.new) }
    ensures hand { StaysReady arena.now hand.old hand.new }
{
    trim_stripes(rt, arena, hand)?;
    trim_ledger(rt, arena, hand);
    Ok(())
}

/// Trims the ledger alone: its entries so far aren't recorded any more, and take no memory but what they left of each page. It waits
/// for the lock of the slabs, and for no other. It takes no memory, so nothing is refused. (own)
pub fn trim_ledger<R: Wait>(rt: &R, arena: &Arena, hand: &mut Hand)
    requires arena { IsHandOf arena.now hand.old }
    requires ready { IsReady (view hand.old) }
    ensures trims { ActsOnceByNumber TrimsLedger hand.old hand.new }
    ensures stores_nothing { (view hand.new).row.knows.stored ≡ (view hand.old).row.knows.stored }
    ensures records_nothing { (view hand.new).row.knows.mine ≡ (view hand.old).row.knows.mine }
    ensures holdings { KeepsHoldings (view hand.old) (view hand.new) }
    ensures hand { StaysReady arena.now hand.old hand.new }
{
    let mut held = arena.lock_slabs(rt, hand);
    arena.trim_ledger(hand, &mut held);
    arena.give_slabs(hand, held);
}

/// Has each stripe forget its calls: from then on none is recorded. It waits for each lock, from 0 on, one at a time. What the
/// contracts state of the history holds on, as it is of all calls. That a call asks for no memory for its entry then is seen in
/// the benchmark, and no clause states it. (own)
pub fn forget<R: Wait>(rt: &R, arena: &Arena, hand: &mut Hand)
    requires arena { IsHandOf arena.now hand.old }
    requires ready { IsReady (view hand.old) }
    ensures forgets { ChangesEach Forget (hand_number hand.old)
        (range_with_len 0 (setup_of arena.now).config.stripes) (view hand.old) (view hand.new) }
    ensures given { (stripe : ℕ) → stripe < (setup_of arena.now).config.stripes →
        GivesBackChanged Forget (view hand.new) stripe }
    ensures stores_nothing { (view hand.new).row.knows.stored ≡ (view hand.old).row.knows.stored }
    ensures records_nothing { (view hand.new).row.knows.mine ≡ (view hand.old).row.knows.mine }
    ensures holdings { KeepsHoldings (view hand.old) (view hand.new) }
    ensures hand { StaysReady arena.now hand.old hand.new }
{
    for stripe in 0..arena.config().stripes {
        forget_stripe(rt, arena, hand, stripe);
    }
}

// Trims the history of each stripe, from 0 on, up to the first that is refused.
fn trim_stripes<R: Wait>(rt: &R, arena: &Arena, hand: &mut Hand) -> Result<(), Trim>
    requires arena { IsHandOf arena.now hand.old }
    requires ready { IsReady (view hand.old) }
    ensures trims { OnOk result (ChangesEach Trimmed (hand_number hand.old)
        (range_with_len 0 (setup_of arena.now).config.stripes) (view hand.old) (view hand.new)) }
    ensures unfull { OnOk result ((stripe : ℕ) → stripe < (setup_of arena.now).config.stripes
        → TakesNotFull (view hand.new) stripe) }
    ensures stops { OnErr result (StopsTrimming (hand_number hand.old) Leaves (view hand.old)
        (view hand.new)) }
    ensures full { result ≡ Err Trim.Full →
        StopsTrimming (hand_number hand.old) FindsStripeFull (view hand.old) (view hand.new) }
    ensures first { result ≡ Err (Trim.NoMemory tt)
        → StopsTrimming (hand_number hand.old) FindsNotFull (view hand.old) (view hand.new) }
    ensures stores_nothing { (view hand.new).row.knows.stored ≡ (view hand.old).row.knows.stored }
    ensures records_nothing { (view hand.new).row.knows.mine ≡ (view hand.old).row.knows.mine }
    ensures holdings { KeepsHoldings (view hand.old) (view hand.new) }
    ensures hand { StaysReady arena.now hand.old hand.new }
{
    for stripe in 0..arena.config().stripes {
        trim_stripe(rt, arena, hand, stripe)?;
    }
    Ok(())
}

// Trims the history of one stripe.
fn trim_stripe<R: Wait>(rt: &R, arena: &Arena, hand: &mut Hand, stripe: u64) -> Result<(), Trim>
    requires arena { IsHandOf arena.now hand.old }
    requires ready { IsReady (view hand.old) }
    requires in_range { stripe < (setup_of arena.now).config.stripes }
    ensures trims { OnOk result (HoldsStripe stripe (Changes Trimmed (hand_number hand.old) stripe)
        (view hand.old) (view hand.new)) }
    ensures leaves { OnErr result (HoldsStripe stripe Leaves (view hand.old) (view hand.new)) }
    ensures unfull { OnOk result (TakesNotFull (view hand.new) stripe) }
    ensures full { result ≡ Err Trim.Full →
        HoldsStripe stripe FindsStripeFull (view hand.old) (view hand.new) }
    ensures first { result ≡ Err (Trim.NoMemory tt)
        → HoldsStripe stripe FindsNotFull (view hand.old) (view hand.new) }
    ensures hand { StaysReady arena.now hand.old hand.new }
{
    let mut held = arena.lock_stripe(rt, hand, stripe);
    if let Err(refused) = arena.trim(hand, &mut held) {
        arena.give_stripe(hand, held);
        return Err(refused);
    }
    arena.give_stripe(hand, held);
    Ok(())
}

// Has one stripe forget its calls.
fn forget_stripe<R: Wait>(rt: &R, arena: &Arena, hand: &mut Hand, stripe: u64)
    requires arena { IsHandOf arena.now hand.old }
    requires ready { IsReady (view hand.old) }
    requires in_range { stripe < (setup_of arena.now).config.stripes }
    ensures forgets { HoldsStripe stripe (Changes Forget (hand_number hand.old) stripe)
        (view hand.old) (view hand.new) }
    ensures hand { StaysReady arena.now hand.old hand.new }
{
    let mut held = arena.lock_stripe(rt, hand, stripe);
    arena.forget(hand, &mut held);
    arena.give_stripe(hand, held);
}

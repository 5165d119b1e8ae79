//! Histories that are trimmed, or forgotten, without a wait: a hand tries for each lock n times. A caller that can't wait uses these calls: a
//! static library can't. (own)
ghost use Rattle.std.specs.List.{range_with_len};
ghost use Rattle.std.specs.Prelude.{◌≡◌, ◌<◌, ℕ, Err, IfErr, OnErr, OnOk};
ghost use Rattle.mc_core.specs.declared.event.StripeChange.TheVariants.{Forget, Trim as Trimmed};
ghost use Rattle.mc_words.specs.hand.Arenas.{IsHandOf, setup_of, view};
ghost use Rattle.mc_words.specs.hand.Observers.{hand_number};
ghost use Rattle.mc_words.specs.hand.Ready.{IsReady, StaysReady};
ghost use Rattle.mc_words.specs.item.Refs.{KeepsHoldings};
ghost use Rattle.mc_words.specs.lock.Doing.{HoldsStripe};
ghost use Rattle.mc_words.specs.lock.Wait.{MissesSlabsEachTime, MissesStripeEachTime};
ghost use Rattle.mc_mover.specs.Acting.{ActsOnceByNumber};
ghost use Rattle.mc_mover.specs.Recording.{Changes, ChangesEach, FindsStripeFull, FindsNotFull, GivesBackChanged, GivesBackUpToOne, Leaves, StopsTrimming, TakesNotFull, TrimsAll, TrimsLedger};
ghost use Rattle.mc_mover.specs.RecordingWithin.{IfRefused, StopsAtLock, StopsAtStripe};
ghost use Rattle.mc_mover.specs.Within.{HoldsSlabsWithin};

use mc_stripe::Trim;
use mc_words::{Arena, Hand, Held};

/// Why a trim that doesn't wait ended early. What was trimmed stays trimmed, and the ledger isn't.
#[derive(PartialEq, Eq, Drop)]
pub enum TrimWithin {
    /// The trim of a stripe was refused, and the stripe is as before.
    Refused(Trim),
    /// Other hands had a stripe's lock at each try, or that of the slabs once all stripes were trimmed.
    Held,
}

/// Trims what is recorded of the past as `trim` does, but the hand tries for each lock `tries` times at most, and doesn't wait. `Held` where each try for
/// one of them missed: the stripes before it stay trimmed, and nothing else was done. (own)
pub fn trim_within(arena: &Arena, hand: &mut Hand, tries: u64) -> Result<(), TrimWithin>
    requires arena { IsHandOf arena.now hand.old }
    requires ready { IsReady (view hand.old) }
    ensures trims { OnOk result (TrimsAll (hand_number hand.old) (setup_of arena.now).config.stripes
        (view hand.old) (view hand.new)) }
    ensures missed { result ≡ Err TrimWithin.Held → StopsAtLock tries (hand_number hand.old)
        (setup_of arena.now).config.stripes (view hand.old) (view hand.new) }
    ensures stops { IfErr result (λ error. IfRefused error (StopsTrimming (hand_number hand.old)
        Leaves (view hand.old) (view hand.new))) }
    ensures given { OnOk result ((stripe : ℕ) → stripe < (setup_of arena.now).config.stripes →
        GivesBackChanged Trimmed (view hand.new) stripe) }
    ensures same { IfErr result (λ error. IfRefused error (GivesBackUpToOne (view hand.new))) }
    ensures full { result ≡ Err (TrimWithin.Refused Trim.Full) →
        StopsTrimming (hand_number hand.old) FindsStripeFull (view hand.old) (view hand.new) }
    ensures first { result ≡ Err (TrimWithin.Refused (Trim.NoMemory tt))
        → StopsTrimming (hand_number hand.old) FindsNotFull (view hand.old) (view hand.new) }
    ensures stores_nothing { (view hand.new).row.knows.stored ≡ (view hand.old).row.knows.stored }
    ensures records_nothing { (view hand.new).row.knows.mine ≡ (view hand.old).row.knows.mine }
    ensures holdings { KeepsHoldings (view hand.old) (view hand.new) }
    ensures hand { StaysReady arena.now hand.old hand.new }
{
    if let Err(error) = trim_stripes_within(arena, hand, tries) {
        return Err(error);
    }
    match trim_ledger_within(arena, hand, tries) {
        Ok(()) => Ok(()),
        Err(_) => Err(TrimWithin::Held),
    }
}

/// Trims the ledger as `trim_ledger` does, but the hand tries for the lock of the slabs `tries` times at most, and doesn't wait. `Held` where
/// each try missed: nothing else was done. (own)
pub fn trim_ledger_within(arena: &Arena, hand: &mut Hand, tries: u64) -> Result<(), Held>
    requires arena { IsHandOf arena.now hand.old }
    requires ready { IsReady (view hand.old) }
    ensures trims { OnOk result (ActsOnceByNumber TrimsLedger hand.old hand.new) }
    ensures missed { OnErr result (MissesSlabsEachTime tries (view hand.old) (view hand.new)) }
    ensures within { OnOk result (HoldsSlabsWithin tries (view hand.old) (view hand.new)) }
    ensures stores_nothing { (view hand.new).row.knows.stored ≡ (view hand.old).row.knows.stored }
    ensures records_nothing { (view hand.new).row.knows.mine ≡ (view hand.old).row.knows.mine }
    ensures holdings { KeepsHoldings (view hand.old) (view hand.new) }
    ensures hand { StaysReady arena.now hand.old hand.new }
{
    let Ok(mut held) = arena.slabs_within(hand, tries) else {
        return Err(Held);
    };
    arena.trim_ledger(hand, &mut held);
    arena.give_slabs(hand, held);
    Ok(())
}

/// Has each stripe forget its calls as `forget` does, but the hand tries for each lock `tries` times at most, and doesn't wait. `Held` where each try
/// for one of them missed: the stripes before it forgot their calls, and nothing else was done. (own)
pub fn forget_within(arena: &Arena, hand: &mut Hand, tries: u64) -> Result<(), Held>
    requires arena { IsHandOf arena.now hand.old }
    requires ready { IsReady (view hand.old) }
    ensures forgets { OnOk result (ChangesEach Forget (hand_number hand.old)
        (range_with_len 0 (setup_of arena.now).config.stripes) (view hand.old) (view hand.new)) }
    ensures missed { OnErr result (StopsAtStripe tries Forget (hand_number hand.old)
        (setup_of arena.now).config.stripes (view hand.old) (view hand.new)) }
    ensures given { OnOk result ((stripe : ℕ) → stripe < (setup_of arena.now).config.stripes →
        GivesBackChanged Forget (view hand.new) stripe) }
    ensures stores_nothing { (view hand.new).row.knows.stored ≡ (view hand.old).row.knows.stored }
    ensures records_nothing { (view hand.new).row.knows.mine ≡ (view hand.old).row.knows.mine }
    ensures holdings { KeepsHoldings (view hand.old) (view hand.new) }
    ensures hand { StaysReady arena.now hand.old hand.new }
{
    for stripe in 0..arena.config().stripes {
        if let Err(error) = forget_stripe_within(arena, hand, stripe, tries) {
            return Err(error);
        }
    }
    Ok(())
}

// Trims the history of each stripe, from 0 on, up to the first that is refused or whose lock is held at each try.
fn trim_stripes_within(arena: &Arena, hand: &mut Hand, tries: u64) -> Result<(), TrimWithin>
    requires arena { IsHandOf arena.now hand.old }
    requires ready { IsReady (view hand.old) }
    ensures trims { OnOk result (ChangesEach Trimmed (hand_number hand.old)
        (range_with_len 0 (setup_of arena.now).config.stripes) (view hand.old) (view hand.new)) }
    ensures missed { result ≡ Err TrimWithin.Held → StopsAtStripe tries Trimmed
        (hand_number hand.old) (setup_of arena.now).config.stripes (view hand.old) (view hand.new) }
    ensures unfull { OnOk result ((stripe : ℕ) → stripe < (setup_of arena.now).config.stripes
        → TakesNotFull (view hand.new) stripe) }
    ensures stops { IfErr result (λ error. IfRefused error (StopsTrimming (hand_number hand.old)
        Leaves (view hand.old) (view hand.new))) }
    ensures full { result ≡ Err (TrimWithin.Refused Trim.Full) →
        StopsTrimming (hand_number hand.old) FindsStripeFull (view hand.old) (view hand.new) }
    ensures first { result ≡ Err (TrimWithin.Refused (Trim.NoMemory tt))
        → StopsTrimming (hand_number hand.old) FindsNotFull (view hand.old) (view hand.new) }
    ensures stores_nothing { (view hand.new).row.knows.stored ≡ (view hand.old).row.knows.stored }
    ensures records_nothing { (view hand.new).row.knows.mine ≡ (view hand.old).row.knows.mine }
    ensures holdings { KeepsHoldings (view hand.old) (view hand.new) }
    ensures hand { StaysReady arena.now hand.old hand.new }
{
    for stripe in 0..arena.config().stripes {
        if let Err(error) = trim_stripe_within(arena, hand, stripe, tries) {
            return Err(error);
        }
    }
    Ok(())
}

// Trims the history of one stripe, for whose lock it tries n times.
fn trim_stripe_within(
    arena: &Arena,
    hand: &mut Hand,
    stripe: u64,
    tries: u64,
) -> Result<(), TrimWithin>
    requires arena { IsHandOf arena.now hand.old }
    requires ready { IsReady (view hand.old) }
    requires in_range { stripe < (setup_of arena.now).config.stripes }
    ensures trims { OnOk result (HoldsStripe stripe (Changes Trimmed (hand_number hand.old) stripe)
        (view hand.old) (view hand.new)) }
    ensures missed { result ≡ Err TrimWithin.Held → MissesStripeEachTime tries stripe
        (view hand.old) (view hand.new) }
    ensures leaves { IfErr result (λ error. IfRefused error (HoldsStripe stripe Leaves
        (view hand.old) (view hand.new))) }
    ensures unfull { OnOk result (TakesNotFull (view hand.new) stripe) }
    ensures full { result ≡ Err (TrimWithin.Refused Trim.Full) →
        HoldsStripe stripe FindsStripeFull (view hand.old) (view hand.new) }
    ensures first { result ≡ Err (TrimWithin.Refused (Trim.NoMemory tt))
        → HoldsStripe stripe FindsNotFull (view hand.old) (view hand.new) }
    ensures hand { StaysReady arena.now hand.old hand.new }
{
    let Ok(mut held) = arena.stripe_within(hand, stripe, tries) else {
        return Err(TrimWithin::Held);
    };
    if let Err(refused) = arena.trim(hand, &mut held) {
        arena.give_stripe(hand, held);
        return Err(TrimWithin::Refused(refused));
    }
    arena.give_stripe(hand, held);
    Ok(())
}

// Has one stripe forget its calls, for whose lock it tries n times.
fn forget_stripe_within(arena: &Arena, hand: &mut Hand, stripe: u64, tries: u64) -> Result<(), Held>
    requires arena { IsHandOf arena.now hand.old }
    requires ready { IsReady (view hand.old) }
    requires in_range { stripe < (setup_of arena.now).config.stripes }
    ensures forgets { OnOk result (HoldsStripe stripe
        (Changes Forget (hand_number hand.old) stripe) (view hand.old) (view hand.new)) }
    ensures missed { OnErr result (MissesStripeEachTime tries stripe (view hand.old)
        (view hand.new)) }
    ensures hand { StaysReady arena.now hand.old hand.new }
{
    let Ok(mut held) = arena.stripe_within(hand, stripe, tries) else {
        return Err(Held);
    };
    arena.forget(hand, &mut held);
    arena.give_stripe(hand, held);
    Ok(())
}

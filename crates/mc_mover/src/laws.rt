//! Laws of what a turn does and returns, each the contract of a function with nothing to do.
ghost use Rattle.mc_mover.specs.Answering.{FinishesExactly};
ghost use Rattle.mc_mover.specs.SameItems.{RescuesKeepItems};
ghost use Rattle.mc_mover.specs.Telling.{OwnCallsComeApart, CallsAreCounted};
ghost use Rattle.mc_mover.specs.Unheld.{BusyIsUncleared, ClearsUnheld};

/// A hand of number 7 that took number 5 over: each call comes behind those on keys of the same stripe, in their order, under its own
/// number alone.
pub fn worked_tellings()
    ensures { OwnCallsComeApart }
{}

/// After a turn the hand's own calls have as many more evictions and rescues as it counted, and no other call more.
pub fn tellings_are_counted()
    ensures { CallsAreCounted }
{}

/// A turn answers `Finished` exactly where a page moved as the turn began, and none moves any more.
pub fn turns_finish_exactly()
    ensures { FinishesExactly }
{}

/// Nobody holds what a turn clears: no hand has a holding of the chunk as its item is taken away, nor as the chunk is cleared.
pub fn turns_clear_what_nobody_holds()
    ensures { ClearsUnheld }
{}

/// A chunk that counts as busy wasn't cleared before: so a pass over a page of cleared chunks ends the move.
pub fn busy_chunks_were_not_cleared()
    ensures { BusyIsUncleared }
{}

/// A rescue changes neither stamp nor words: the item that memory had in the original goes to the copy, and its key leads there with the
/// stamp with which it led to the original.
pub fn rescues_keep_items()
    ensures { RescuesKeepItems }
{}

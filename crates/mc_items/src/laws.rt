//! Laws of references to items over several calls, each the contract of a function with nothing to do.
ghost use Rattle.mc_items.specs.PutIn.{HintedGetsAreLegal, HintedGetsLeaveOthers};
ghost use Rattle.mc_items.specs.Keeping.{HeldRefsKeepItems, KeepingGoesOn, KeepingHoldingsGoesOn, KeptRefsKeepItems, ReleasingKeepsOthers};

/// After a call that keeps the hand's references each reference to an item is one still, and the item's words are the same.
pub fn kept_refs_keep_items()
    ensures { KeptRefsKeepItems }
{}

/// After a release each other reference of the hand to an item is one still, and the item's words are the same.
pub fn held_refs_keep_items()
    ensures { HeldRefsKeepItems }
{}

/// Two calls that keep the hand's references keep them one after the other.
pub fn keeping_goes_on()
    ensures { KeepingGoesOn }
{}

/// Two calls that keep the hand's holdings keep them one after the other.
pub fn keeping_holdings_goes_on()
    ensures { KeepingHoldingsGoesOn }
{}

/// A reference that was got and released again leaves the hand the references that it had before, whatever it is to.
pub fn releasing_keeps_others()
    ensures { ReleasingKeepsOthers }
{}

/// A get by a hint takes no lock and is in no history. Put into its stripe's history at the moment of its exchange, it is legal there, whatever
/// comes behind it, and changes no other reply. (own)
pub fn hinted_gets_are_legal()
    ensures legal { HintedGetsAreLegal }
    ensures others { HintedGetsLeaveOthers }
{}

//! The rule of the table: its words, the values at home and what the hands know mean a lawful moment of the core.
pub(crate) mod places;
pub(crate) mod steps;

use crate::arena::plan::Plan;
use crate::lock::slot::Slot;
use atomic_table::{Join, Play, Seat, Table, TableRule};
use std::alloc::Global;
use std::marker::{Brand, Model};

/// What a hand knows, which a contract sees as a `View`. No value of it is made, and it has no bytes.
pub struct HandView {
    nothing: (),
}

impl Model for HandView {
    ghost use Rattle.mc_words.specs.hand.View.{View, spent_view};

    ghost Value = { View };

    ghost view = { λ _. spent_view };
}

/// The table is lawful.
pub struct LawfulTable;

impl TableRule<Slot, HandView, Plan> for LawfulTable {
    ghost use Rattle.std.specs.Prelude.{◌-◌};
    ghost use Rattle.mc_words.specs.hand.View.{new_view};
    ghost use Rattle.mc_words.specs.rule.Joins.{Rule};

    ghost holds = { Rule };

    ghost first = { λ setup. new_view setup 0 (setup.hands - 1) };
}

pub(crate) type SharedTable = Table<Slot, HandView, Plan, LawfulTable, Global>;

/// The seat by which a hand steps on the table.
pub(crate) type HandSeat = Seat<Slot, HandView>;

// The function that makes a step picks what the step shows.
impl Play<Slot, HandView> for Brand {
    ghost use Rattle.std.specs.Prelude.{◌≡◌};

    ghost then = { λ step me found now. now ≡ me };
}

/// The join that makes one hand of two.
pub struct BothHands;

impl Join<HandView> for BothHands {
    ghost use Rattle.mc_words.specs.hand.View.{just_made, spent_view};

    ghost both = { just_made };

    ghost spent = { spent_view };
}

/// A hand that was made of two learns of that.
pub struct ToldOfBoth;

impl Play<Slot, HandView> for ToldOfBoth {
    ghost use Rattle.mc_words.specs.rule.Joins.{ShowsMade};

    ghost then = { ShowsMade };
}

/// A load that is no event of the core shows a word.
pub struct ShownWord;

impl Play<Slot, HandView> for ShownWord {
    ghost use Rattle.mc_words.specs.rule.Shown.{ShowsWord};

    ghost then = { ShowsWord };
}

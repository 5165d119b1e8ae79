//! The slots of the table: each has pages and lists, a stripe, or nothing.
use crate::lock::boxed_stripe::BoxedStripe;
use mc_pages::SharedSlabs;

/// What the slot of a lock has: the value behind that lock, or nothing while a hand has it.
#[derive(Drop)]
pub enum Slot {
    Empty,
    OfSlabs(SharedSlabs),
    OfStripe(BoxedStripe),
}

//! Locks, and the values behind them.
pub(crate) mod boxed_stripe;
pub(crate) mod changes;
pub(crate) mod contention;
pub(crate) mod exchange;
pub(crate) mod locks;
pub(crate) mod slot;
pub(crate) mod stripe_room;
pub(crate) mod tries;
pub(crate) mod wait;
pub(crate) mod within;

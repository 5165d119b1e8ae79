//! The arena that threads share: one table of atomic words, whose rule is the law of `mc_core`, and values behind locks.
//!
//! - [`Arena::new`] makes an arena and its hands, at most 64. A thread has the arena by `&`, and a [`Hand`] of its own by `&mut`.
//! - [`Arena::lock_slabs`] waits for the slabs lock and lends a [`SlabsHeld`]; `try_slabs` and `slabs_within` don't wait. The
//!   same calls of a stripe lend a [`StripeHeld`]. `give_slabs` and `give_stripe` put the values back.
//! - With the slabs lock `grow` and `cut_page` give a class a page, `pop` hands out a [`Fresh`] chunk, and `sweep` puts dead
//!   chunks back. `begin_move`, `pop_off`, `clear` and `finish_move` are steps of a page's move.
//! - With a stripe's lock `reserve` makes room, `link` makes an item of a filled chunk, and `refer` and `unlink` act on a key.
//! - With no lock `fill` writes a fresh chunk, `word` reads an item by its [`Ref`], and `release` gives the [`Ref`] back. `again`
//!   gets one by a [`Hint`].
//! - `join_hands` makes one hand of two, and [`Arena::close`] ends the arena and returns its [`Final`].
//!
//! ```rust
//! fn set_mode<R: Wait>(rt: &R, arena: &Arena, hand: &mut Hand, mode: u64) {
//!     let mut held = arena.lock_slabs(rt, hand);
//!     arena.set_automove(hand, &mut held, mode);
//!     arena.give_slabs(hand, held);
//! }
//! ```
//!
//! A caller may rely on this: each step of a call is one event of the model, allowed in a lawful moment. [`laws`] proves the
//! promise of the words between any two steps. No clause states that a lock ever comes. A cache calls `mc_items` and `mc_mover`,
//! and of this crate `Arena::new` alone. CALLING.md has the contracts.
#![tactic(auto)]

mod arena;
mod chunk;
mod hand;
pub mod header;
mod item;
pub mod laws;
mod lock;
mod page;
mod rule;

pub use arena::Arena;
pub use arena::end::Final;
pub use arena::refusal::NewError;
pub use hand::Hand;
pub use hand::held::{Fresh, Held, Moved, SlabsHeld, StripeHeld, TooManyRefs, WornOut};
pub use item::refs::{Again, Hint, Ref};
pub use item::words::ItemFields;

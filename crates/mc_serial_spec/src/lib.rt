//! The plain machine of a serial run: over lists, what is replied to each command, and what is stored then.
//!
//! The machine is a definition. Its files in `specs/` have, in the order in which a reader meets them:
//!
//! - `Machine`: page lists, free lists, hand-out orders, items, holds, and the windows of the automover.
//! - `Lines`: `serve` gives the reply to a command and the machine after it, or nothing where the run's turns run out.
//! - `Supply`, `Mover` and `Automove`: how a set comes to a chunk, what a turn does, and what a window decides.
//! - `Texts`: the bytes of each reply. `Consistent`: what each machine keeps.
//!
//! The code here is the types that the definitions name. [`Counts`] has what turns of the mover did, and [`Ending`] how the last
//! one ended.
//!
//! ```rust
//! let mut counts = Counts::new();
//! counts.count(Found::Cleared); // one chunk is cleared
//! counts.count(Found::Rescued); // two are cleared, and the item of one was rescued
//! ```
//!
//! A caller may rely on the definition alone: `mc_keeper` proves that its calls do as the machine does, `mc_driver` that a serial
//! run writes its replies, and `mc_serial_laws` what follows of it. The machine has no header, no index, no lock and no count of
//! holders.
#![tactic(auto)]

mod turn;

pub use turn::{Counts, Ending};

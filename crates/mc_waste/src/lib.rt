//! What chunks leave unused: how much of its chunk an item may leave, by the factor and the rounding of the class table.
//!
//! An item of n words takes 24 + 8 n bytes, and gets a whole chunk of the lowest class with room for it.
//!
//! - [`worst_waste`] computes for one class the most bytes that an item leaves of its chunk. None where no item goes to the
//!   class.
//! - The laws are contracts of functions without a body. [`chunks_are_bounded`] bounds the chunk by the bytes of the item, and
//!   [`waste_is_a_share`] the waste as a share of the chunk. [`five_quarters`] does so for a factor of 5/4.
//! - [`tables_are_computed`] and [`worked_tables`] compute three tables with the waste of each class, and show why the bound has
//!   its parts.
//!
//! ```rust
//! fn waste_of_last(alloc: Global, config: &Config) -> Result<Option<u64>, ConfigError> {
//!     let table = ClassTable::build(alloc, config)?;
//!     Ok(worst_waste(&table, table.count()))
//! }
//! ```
//!
//! A caller may rely on the laws for each table that [`mc_classes::ClassTable::build`] returns. A 63rd class has no bound as a
//! share, since it has the greatest size however small the class below is.
#![tactic(auto)]

mod laws;
mod waste;

pub use laws::{
    chunks_are_bounded, five_quarters, tables_are_computed, waste_is_a_share, worked_tables,
};
pub use waste::worst_waste;

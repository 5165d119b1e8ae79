//! How a map is shown: as text, as a chart of pages over time, and the class table before anything runs.
//!
//! - [`write_map`] adds a map of `mc_map` as text, under a heading: the pages, the page map, a line for each class, the ledger,
//!   and what holds a move up.
//! - [`class_rows`] makes a [`ClassRow`] for each class of a table, and [`write_classes`] adds the class table as text.
//! - [`write_chart`] adds an SVG, whose column k shows the owners of all pages after the first k entries of a ledger. A
//!   [`ChartError`] is why none is drawn; a chart has room for [`MOST_ENTRIES`].
//!
//! ```rust
//! fn show_classes(alloc: Global, table: &ClassTable, text: &mut String) -> Option<()> {
//!     let rows = class_rows(alloc, table).ok()?;
//!     write_classes(table, &rows, text).ok()
//! }
//! ```
//!
//! A caller may rely on this: the texts of a map and of the class table are proved byte for byte, and [`worked_texts`] has
//! examples. Of a chart the cells are proved, and its head, axis and legend are not. The crate adds to a text and writes nothing:
//! `mcmap` prints it.
#![tactic(auto)]

mod cells;
mod chart;
mod classes;
mod hang;
mod laws;
mod ledger;
mod legend;
mod lines;
mod sheet;
mod text;

pub use chart::{ChartError, MOST_ENTRIES, write_chart};
pub use classes::{ClassRow, class_rows, write_classes};
pub use laws::worked_texts;
pub use text::write_map;

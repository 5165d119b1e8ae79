//! The sheet of a chart: pages, ledger and classes, no more than it has room for.
ghost use Rattle.std.specs.Prelude.{◌≤◌, length};
ghost use Rattle.mc_classes.specs.Limits.{most_classes};

use crate::classes::ClassRow;
use mc_pages::Entry;

/// The pages, the bytes of each, the ledger of their owners, and the classes: no more of each than a chart has room for.
#[derive(Drop)]
pub(crate) struct Sheet<'a> {
    pub(crate) pages: usize,
    pub(crate) page: u64,
    pub(crate) ledger: &'a [Entry],
    pub(crate) classes: &'a [ClassRow],
    ghost few_pages: { pages ≤ 4096 },
    ghost few_entries: { length ledger.now ≤ 4096 },
    ghost few_classes: { length classes.now ≤ most_classes },
}

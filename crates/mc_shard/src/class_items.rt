//! How many items a class has, and of which sizes.
ghost use Rattle.std.specs.Prelude.{◌≡◌, IfSome};
ghost use Rattle.mc_classes.specs.Classes.{IsClass};
ghost use Rattle.mc_shard.specs.ClassItems.{RowsAreSums, class_of_size, row_with, rows_with};
ghost use Rattle.mc_shard.specs.ItemCases.{BothLengthsCount, EachHasItsClass, EachStripeCounts, RowsStay, TooLargeIsInNone};

use crate::sizes::HEAD_WORDS;
use mc_classes::{ClassId, ClassTable};
use mc_packing::words_for_bytes;

/// How many items a class has, and how many bytes they have. Each number stays at 2^64 - 1 once there.
#[derive(Debug, Clone, Copy, PartialEq, Eq)]
pub struct ClassItems {
    /// How many items. (memcached's `number` of `stats items`)
    pub items: u64,
    /// The bytes of their keys and values, without what the form of an item adds. (memcached's `mem_requested`, which has the bytes of an
    /// item's header, too)
    pub bytes: u64,
}

/// How many bytes the key and the value of an item have.
#[derive(Debug, Clone, Copy)]
pub struct ItemSize {
    /// The bytes of the key.
    pub key: u64,
    /// The bytes of the value.
    pub value: u64,
}

impl ClassItems {
    // Counts an item of this size, too.
    fn add(&mut self, size: ItemSize)
        ensures added { self.new ≡ row_with size self.old }
    {
        self.items = self.items.saturating_add(1);
        self.bytes = self
            .bytes
            .saturating_add(size.key)
            .saturating_add(size.value);
    }
}

/// Counts an item of this size in the row of its class, that of class 1 first. An item is in no row where it has no class, or its class
/// no row.
pub(crate) fn add_item(classes: &ClassTable, rows: &mut [ClassItems], size: ItemSize)
    ensures added { rows.new ≡ rows_with classes.now rows.old size }
{
    if let Some(class) = class_for_size(classes, size) {
        let place = class as usize - 1;
        if place < rows.len() {
            let row = &mut rows[place];
            row.add(size);
        }
    }
}

/// The class whose chunks an item of this size gets.
fn class_for_size(classes: &ClassTable, size: ItemSize) -> Option<ClassId>
    ensures class { result ≡ class_of_size classes.now size }
    ensures some { IfSome result (λ class. IsClass classes.now class) }
{
    let words = HEAD_WORDS + words_for_bytes(size.key) + words_for_bytes(size.value);
    classes.class_for(words.saturating_mul(8)) // no class has chunks of so many bytes
}

/// Worked cases. An item has the bytes of its key and of its value; it is in the row of the lowest class whose chunks have room for it, or in
/// none; a number that would pass 2^64 - 1 stays there; and the items of two stripes are those of the one and of the other.
pub fn worked_class_items()
    ensures bytes { BothLengthsCount }
    ensures class { EachHasItsClass }
    ensures none { TooLargeIsInNone }
    ensures stays { RowsStay }
    ensures stripes { EachStripeCounts }
{}

/// A law: rows that begin without any item have the sums of what was counted in them. The row of a class has how many of the items are of the
/// class, and how many bytes of keys and values these have.
pub fn rows_are_sums()
    ensures sums { RowsAreSums }
{}

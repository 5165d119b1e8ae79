//! The numbers of a class on a map: its pages, and what is in its chunks.
ghost use Rattle.std.specs.Prelude.{◌≡◌, ℕ, ◌+◌, ◌≤◌, ◌^◌, length, true, is_ok, IfErr, IfOk, IfSome};
ghost use Rattle.mc_map.specs.declared.map.MapError.TheVariants as MapError;
ghost use Rattle.mc_classes.specs.Limits.{most_page_bytes};
ghost use Rattle.mc_pages.specs.SlabState.{HasClass};
ghost use Rattle.mc_serial_spec.specs.Item.{item_bytes};
ghost use Rattle.mc_map.specs.Kept.{asked_bytes, bytes_as, bytes_of_key, linked_count, FitsIn, HasCounts, IsLine};

use crate::items::Items;
use crate::map::MapError;
use mc_classes::{ClassId, ClassTable};
use mc_keeper::Keeper;

/// What a class has. Each chunk of its pages is free, linked, held with no key, cleared or dead.
#[derive(Clone, Copy, Debug, PartialEq, Eq)]
pub struct ClassLine {
    pub class: ClassId,
    /// The bytes of a chunk.
    pub size: u64,
    pub per_page: u64,
    /// How many pages the class has, a moving one included.
    pub pages: u64,
    /// The chunks of these pages: the free, cleared, linked, unlinked and dead ones.
    pub chunks: u64,
    /// Items to which their keys lead.
    pub linked: u64,
    /// Items that somebody holds, whether their keys lead to them or not.
    pub held: u64,
    /// Held items to which no key leads.
    pub unlinked: u64,
    /// Items that neither a key leads to nor anybody holds.
    pub dead: u64,
    pub free: u64,
    /// Chunks of the moving page that the mover has dealt with.
    pub cleared: u64,
    /// The bytes that the linked items ask for.
    pub asked: u64,
    /// The bytes of the chunks that they are in.
    pub bytes: u64,
    /// How many items were evicted to make room.
    pub evictions: u64,
}

impl ClassLine {
    ghost use Rattle.std.specs.Prelude.{◌≡◌, ◌-◌, ◌↔◌, true};
    ghost use Rattle.mc_map.specs.Sums.{IsSummed};

    /// The bytes of the linked items' chunks that they don't ask for.
    pub fn waste(&self) -> u64
        ensures { result ≡ self.now.bytes - self.now.asked }
    {
        self.bytes.saturating_sub(self.asked)
    }

    /// Whether each chunk is counted once.
    fn is_summed(&self) -> bool
        ensures { result ≡ true ↔ IsSummed self.now }
    {
        let items = self.linked as u128 + self.unlinked as u128 + self.dead as u128;
        self.chunks as u128 == items + self.free as u128 + self.cleared as u128
    }
}

/// The linked items of a class.
#[derive(Clone, Copy)]
struct Linked {
    count: u64,
    /// The bytes that they ask for.
    asked: u64,
}

/// The held items of a class.
#[derive(Clone, Copy)]
struct Held {
    count: u64,
    /// Held items of the class to which no key leads.
    unlinked: u64,
}

/// The bytes that an item of n words asks for, if it comes into the class.
fn bytes_as(table: &ClassTable, class: ClassId, words: u64) -> Option<u64>
    requires { words ≤ 2 ^ 60 }
    ensures bytes { result ≡ bytes_as table.now class words }
    ensures most { IfSome result (λ bytes. bytes ≤ most_page_bytes) }
{
    let bytes = 24 + 8 * words;
    match table.class_for(bytes) {
        Some(own) if own == class => Some(bytes),
        _ => None,
    }
}

/// The bytes that the key's item asks for, if it has one in the class.
fn bytes_in(keeper: &Keeper, class: ClassId, key: u64) -> Result<Option<u64>, MapError>
    ensures bytes { IfOk result (λ bytes. bytes ≡ bytes_of_key keeper.now class key) }
    ensures most { IfOk result (λ bytes. IfSome bytes (λ n. n ≤ most_page_bytes)) }
{
    match keeper.get(0, key) {
        Ok(Some(words)) => Ok(bytes_as(keeper.table(), class, words.len() as u64)),
        Ok(None) => Ok(None),
        Err(_full) => Err(MapError::Refs),
    }
}

/// The items of these keys in the class.
fn linked_in(keeper: &Keeper, class: ClassId, keys: &[u64]) -> Result<Linked, MapError>
    requires { length keys.now ≤ 2 ^ 32 }
    ensures count { IfOk result (λ linked. linked.count ≡ linked_count keeper.now class keys.now) }
    ensures asked { IfOk result (λ linked. linked.asked ≡ asked_bytes keeper.now class keys.now) }
    ensures most { IfOk result (λ linked. linked.count ≤ 2 ^ 32) }
{
    let mut count = 0;
    let mut asked = 0;
    for key in keys {
        if let Some(bytes) = bytes_in(keeper, class, *key)? {
            count += 1;
            asked += bytes;
        }
    }
    Ok(Linked { count, asked })
}

/// The items of the class that somebody holds.
fn held_in(keeper: &Keeper, class: ClassId, items: &Items) -> Result<Held, MapError> {
    let mut count = 0u64;
    let mut unlinked = 0u64;
    for item in items.held() {
        if !item.is_of(keeper.table(), class) {
            continue;
        }
        count = count.saturating_add(1);
        if !items.is_linked(keeper, item)? {
            unlinked = unlinked.saturating_add(1);
        }
    }
    Ok(Held { count, unlinked })
}

/// What the class has, with n of its chunks cleared.
pub(crate) fn class_line(
    keeper: &Keeper,
    class: ClassId,
    items: &Items,
    cleared: u64,
) -> Result<ClassLine, MapError>
    requires class { HasClass keeper.now.slabs class }
    requires within_limit { length items.now.keys.items ≤ 2 ^ 32 }
    ensures line { IfOk result (IsLine keeper.now items.now.keys.items) }
    ensures class { IfOk result (λ line. line.class ≡ class) }
{
    let linked = linked_in(keeper, class, items.keys())?;
    let held = held_in(keeper, class, items)?;
    line_of(keeper, class, linked, held, cleared)
}

/// The line of these items of the class, with n of its chunks cleared. `Books` where the class has fewer chunks than that.
fn line_of(
    keeper: &Keeper,
    class: ClassId,
    linked: Linked,
    held: Held,
    cleared: u64,
) -> Result<ClassLine, MapError>
    requires class { HasClass keeper.now.slabs class }
    requires within_limit { linked.count ≤ 2 ^ 32 }
    ensures counts { IfOk result (HasCounts keeper.now class linked.count linked.asked
        held.unlinked cleared) }
    ensures refused { IfErr result (λ error. error ≡ MapError.Books) }
    ensures fits { FitsIn keeper.now class (linked.count + held.unlinked + cleared) →
        is_ok result ≡ true }
{
    let table = keeper.table();
    let numbers = keeper.numbers(class);
    if numbers.pages > table.arena_pages() {
        return Err(MapError::Books);
    }
    let size = table.size(class);
    let per_page = table.per_page(class);
    let chunks = numbers.pages * per_page;
    let line = ClassLine {
        class,
        size,
        per_page,
        pages: numbers.pages,
        chunks,
        linked: linked.count,
        held: held.count,
        unlinked: held.unlinked,
        dead: chunks
            .saturating_sub(numbers.free)
            .saturating_sub(cleared)
            .saturating_sub(linked.count)
            .saturating_sub(held.unlinked),
        free: numbers.free,
        cleared,
        asked: linked.asked,
        bytes: linked.count * size,
        evictions: numbers.evictions,
    };
    if !line.is_summed() {
        return Err(MapError::Books);
    }
    Ok(line)
}

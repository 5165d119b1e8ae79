//! The text of what is behind the slabs lock.
ghost use Rattle.std.specs.Prelude.{◌≡◌, ◌++◌, OnOk, flat_map, length, string_bytes};
ghost use Rattle.mc_classes.specs.Classes.{arena_pages_of};
ghost use Rattle.mc_pages.specs.SlabState.{HasClass, class_at, totals_of};
ghost use Rattle.mc_core.specs.model.InOrder.{IsOfTable};
ghost use Rattle.mc_replay.specs.Written.{chunk_text, chunks_text, class_state_line, class_states_text, ledger_entry_line, ledger_entry_text, evictions_text, free_text, item_counts, stored_ledger_text, mode_text, moving_line, moving_text, order_text, owner_line, owners_text, page_counts, slab_state_text, totals_line, trimmed_entries};

use crate::fault::NoMemory;
use mc_classes::{ClassId, ClassTable, PageId};
use mc_core::{free_of, order_of};
use mc_memory::push_str;
use mc_pages::{ChunkId, Entry, Moving, Owner, Slabs, Totals};
use std::alloc::{AllocError, Global};

/// Owners, what the ledger records, classes, the page that moves, and the numbers of the whole.
#[tactic(auto, using(crate::proofs::Ranges::appends_three))]
pub(super) fn slabs(
    alloc: Global,
    text: &mut String,
    table: &ClassTable,
    slabs: &Slabs,
) -> Result<(), NoMemory>
    requires { IsOfTable table.now slabs.now.state }
    ensures { OnOk result (string_bytes text.new ≡ string_bytes text.old
        ++ slab_state_text table.now slabs.now.state) }
{
    pages(text, table, slabs)?;
    classes(alloc, text, table, slabs)?;
    Ok(moves(text, slabs)?)
}

/// Owners, and what the ledger records.
fn pages(text: &mut String, table: &ClassTable, slabs: &Slabs) -> Result<(), NoMemory>
    requires { IsOfTable table.now slabs.now.state }
    ensures { OnOk result (string_bytes text.new ≡ string_bytes text.old
        ++ (owners_text (arena_pages_of table.now) slabs.now.state
        ++ stored_ledger_text slabs.now.state)) }
{
    owners(text, table, slabs)?;
    ledger(text, slabs)
}

/// The page that moves, and the numbers of the whole.
fn moves(text: &mut String, slabs: &Slabs) -> Result<(), AllocError>
    ensures { OnOk result (string_bytes text.new ≡ string_bytes text.old
        ++ (moving_text slabs.now.state.moving ++ totals_line
        (totals_of slabs.now.state) slabs.now.state.automove)) }
{
    moving(text, slabs.moving())?;
    totals(text, slabs.totals(), slabs.automove())
}

/// Adds the owner of each page.
fn owners(text: &mut String, table: &ClassTable, slabs: &Slabs) -> Result<(), AllocError>
    requires { IsOfTable table.now slabs.now.state }
    ensures { OnOk result (string_bytes text.new ≡ string_bytes text.old
        ++ owners_text (arena_pages_of table.now) slabs.now.state) }
{
    for page in 0..table.arena_pages() {
        owner(text, page, slabs.owner(page))?;
    }
    Ok(())
}

/// Adds the owner of the page.
fn owner(text: &mut String, page: PageId, owner: Owner) -> Result<(), AllocError>
    ensures { OnOk result (string_bytes text.new ≡ string_bytes text.old ++ owner_line page owner) }
{
    match owner {
        Owner::Untouched => Ok(()),
        Owner::Pool => writeln!(text, "owner {page} Pool"),
        Owner::Class(class) => writeln!(text, "owner {page} Class {class}"),
        Owner::Moving { src, dst } => writeln!(text, "owner {page} Moving {src} {dst}"),
    }
}

/// How many entries of the ledger were trimmed, and those behind them.
fn ledger(text: &mut String, slabs: &Slabs) -> Result<(), NoMemory>
    ensures { OnOk result (string_bytes text.new ≡ string_bytes text.old
        ++ stored_ledger_text slabs.now.state) }
{
    trimmed_entries(text, slabs.trimmed())?;
    entries(text, slabs.ledger())
}

/// How many entries of the ledger were trimmed, where some were.
fn trimmed_entries(text: &mut String, count: u64) -> Result<(), AllocError>
    ensures { OnOk result (string_bytes text.new ≡ string_bytes text.old ++ trimmed_entries count) }
{
    if count == 0 {
        return Ok(());
    }
    writeln!(text, "trimmed ledger {count}")
}

/// How pages changed hands.
fn entries(text: &mut String, entries: &[Entry]) -> Result<(), NoMemory>
    ensures { OnOk result (string_bytes text.new ≡ string_bytes text.old
        ++ flat_map ledger_entry_line entries.now) }
{
    for change in entries {
        push_str(text, "ledger ")?;
        entry(text, *change)?;
    }
    Ok(())
}

/// How a page changed hands.
fn entry(text: &mut String, entry: Entry) -> Result<(), AllocError>
    ensures { OnOk result (string_bytes text.new ≡ string_bytes text.old
        ++ ledger_entry_text entry) }
{
    match entry {
        Entry::Granted(page, class, grace) => {
            let grace = u64::from(grace);
            writeln!(text, "Granted {page} {class} {grace}")
        }
        Entry::Taken(page, class) => writeln!(text, "Taken {page} {class}"),
        Entry::Began(page, src, dst) => writeln!(text, "Began {page} {src} {dst}"),
        Entry::Ended(page, class) => writeln!(text, "Ended {page} {class}"),
    }
}

/// The lists of all classes.
fn classes(
    alloc: Global,
    text: &mut String,
    table: &ClassTable,
    slabs: &Slabs,
) -> Result<(), NoMemory>
    requires { IsOfTable table.now slabs.now.state }
    ensures { OnOk result (string_bytes text.new ≡ string_bytes text.old
        ++ class_states_text (length table.now.sizes) slabs.now.state) }
{
    for place in 0..table.count() {
        class(alloc, text, slabs, place + 1)?;
    }
    Ok(())
}

/// The lists of a class, and how often it evicted.
fn class(alloc: Global, text: &mut String, slabs: &Slabs, class: ClassId) -> Result<(), NoMemory>
    requires { HasClass slabs.now.state class }
    ensures { OnOk result (string_bytes text.new ≡ string_bytes text.old
        ++ class_state_line class (class_at slabs.now.state class)) }
{
    lists(alloc, text, slabs, class)?;
    Ok(evictions(text, slabs.numbers(class).evictions)?)
}

/// A class, its free list and its hand-out order.
fn lists(alloc: Global, text: &mut String, slabs: &Slabs, class: ClassId) -> Result<(), NoMemory>
    requires { HasClass slabs.now.state class }
    ensures { OnOk result (string_bytes text.new ≡ string_bytes text.old
        ++ (free_text class (class_at slabs.now.state class).free
        ++ order_text (class_at slabs.now.state class).order)) }
{
    let free = free_of(alloc, slabs, class)?;
    let order = order_of(alloc, slabs, class)?;
    free_list(text, class, &free)?;
    hand_out_order(text, &order)?;
    Ok(())
}

/// A class and its free list.
fn free_list(text: &mut String, class: ClassId, free: &[ChunkId]) -> Result<(), NoMemory>
    ensures { OnOk result (string_bytes text.new ≡ string_bytes text.old
        ++ free_text class free.now) }
{
    write!(text, "class {class} free [")?;
    chunks(text, free)
}

/// A hand-out order.
fn hand_out_order(text: &mut String, order: &[ChunkId]) -> Result<(), NoMemory>
    ensures { OnOk result (string_bytes text.new ≡ string_bytes text.old ++ order_text order.now) }
{
    push_str(text, "] order [")?;
    chunks(text, order)
}

/// How often a class evicted.
fn evictions(text: &mut String, count: u64) -> Result<(), AllocError>
    ensures { OnOk result (string_bytes text.new ≡ string_bytes text.old ++ evictions_text count) }
{
    writeln!(text, "] evictions {count}")
}

/// The chunks of a list.
fn chunks(text: &mut String, chunks: &[ChunkId]) -> Result<(), NoMemory>
    ensures { OnOk result (string_bytes text.new ≡ string_bytes text.old
        ++ chunks_text chunks.now) }
{
    let Some((first, others)) = chunks.split_first() else {
        return Ok(());
    };
    chunk(text, *first)?;
    for other in others {
        push_str(text, " ")?;
        chunk(text, *other)?;
    }
    Ok(())
}

/// A chunk of a list.
fn chunk(text: &mut String, chunk: ChunkId) -> Result<(), AllocError>
    ensures { OnOk result (string_bytes text.new ≡ string_bytes text.old ++ chunk_text chunk) }
{
    let ChunkId { page, index } = chunk;
    write!(text, "{page}.{index}")
}

/// The page that moves, if one does.
fn moving(text: &mut String, moving: Option<Moving>) -> Result<(), AllocError>
    ensures { OnOk result (string_bytes text.new ≡ string_bytes text.old ++ moving_text moving) }
{
    match moving {
        Some(moving) => moving_page(text, moving),
        None => Ok(()),
    }
}

/// The page that moves.
fn moving_page(text: &mut String, moving: Moving) -> Result<(), AllocError>
    ensures { OnOk result (string_bytes text.new ≡ string_bytes text.old ++ moving_line moving) }
{
    let Moving {
        page,
        src,
        dst,
        at,
        busy,
    } = moving;
    write!(text, "moving {page} {src} {dst}")?;
    writeln!(text, " at {at} busy {busy}")
}

/// The numbers of the whole, and the automover's mode.
#[tactic(auto, using(crate::proofs::Ranges::appends_three))]
fn totals(text: &mut String, totals: Totals, automove: u64) -> Result<(), AllocError>
    ensures { OnOk result (string_bytes text.new ≡ string_bytes text.old
        ++ totals_line totals automove) }
{
    page_counts(text, totals)?;
    item_counts(text, totals)?;
    mode(text, automove)
}

/// The pages in the pool, and the moves that ended.
fn page_counts(text: &mut String, totals: Totals) -> Result<(), AllocError>
    ensures { OnOk result (string_bytes text.new ≡ string_bytes text.old ++ page_counts totals) }
{
    write!(text, "totals pool {}", totals.pool)?;
    write!(text, " moved {}", totals.moved)
}

/// What became of items on moving pages.
fn item_counts(text: &mut String, totals: Totals) -> Result<(), AllocError>
    ensures { OnOk result (string_bytes text.new ≡ string_bytes text.old ++ item_counts totals) }
{
    write!(text, " rescues {}", totals.rescues)?;
    write!(text, " nomem {}", totals.evictions_nomem)?;
    write!(text, " busy {}", totals.busy)
}

/// The automover's mode.
fn mode(text: &mut String, mode: u64) -> Result<(), AllocError>
    ensures { OnOk result (string_bytes text.new ≡ string_bytes text.old ++ mode_text mode) }
{
    writeln!(text, " automove {mode}")
}

//! The owners of all pages, as the entries of a ledger make them.
ghost use Rattle.std.specs.Prelude.{◌≡◌, ◌+◌, ◌<◌, ◌^◌, true, false, Some, None, IfOk, OnOk, length, map, slice_set};
ghost use Rattle.mc_pages.specs.Ledger.{all_untouched, fits_owner, owner_after, page_of, replay};
ghost use Rattle.mc_map.specs.Replays.{is_fitting, replayed_owners};

use mc_memory::{Refused, filled, push};
use mc_pages::{Entry, Owner};
use std::alloc::Global;

/// Why entries make no owners.
#[derive(Debug, PartialEq, Eq, Drop)]
pub enum Misfit {
    /// An entry finds its page otherwise, or there is no such page.
    Entry,
    /// Memory ran out.
    NoMemory(Refused),
}

/// The owners of n untouched pages after these entries, page 0 first. An entry that finds its page otherwise is refused.
pub fn owners_after(alloc: Global, pages: usize, entries: &[Entry]) -> Result<Vec<Owner>, Misfit>
    ensures owners { IfOk result (λ owners. replay (all_untouched pages) entries.now
        ≡ Some owners.items) }
    ensures misfit { result ≡ Err Misfit.Entry → replay (all_untouched pages) entries.now ≡ None }
{
    let mut owners = filled(alloc, Owner::Untouched, pages).map_err(Misfit::NoMemory)?;
    for entry in entries {
        apply(&mut owners, *entry)?;
    }
    Ok(owners)
}

/// The owners before the first entry, after the first one, and so on: column k has what the first k entries make.
pub fn columns(alloc: Global, pages: usize, entries: &[Entry]) -> Result<Vec<Vec<Owner>>, Misfit>
    requires { length entries.now < 2 ^ 60 }
    ensures columns { IfOk result (λ columns. map (λ column. Some column.items) columns.items
        ≡ replayed_owners pages entries.now (length entries.now + 1)) }
{
    let mut columns = Vec::new(alloc);
    for count in 0..entries.len() + 1 {
        let owners = owners_after(alloc, pages, &entries[..count])?;
        push(&mut columns, owners).map_err(Misfit::NoMemory)?;
    }
    Ok(columns)
}

/// The entry changes the owner of its page, which it has to fit.
fn apply(owners: &mut [Owner], entry: Entry) -> Result<(), Misfit>
    ensures applied { OnOk result (owners.new ≡ slice_set owners.old (page_of entry)
        (owner_after entry)) }
    ensures fitting { OnOk result (is_fitting owners.old entry ≡ true) }
    ensures misfit { result ≡ Err Misfit.Entry → is_fitting owners.old entry ≡ false }
    ensures memory { result ≡ Err (Misfit.NoMemory tt) → ⊥ }
{
    let page = entry.page();
    if page >= owners.len() as u64 {
        return Err(Misfit::Entry);
    }
    if !fits(entry, owners[page as usize]) {
        return Err(Misfit::Entry);
    }
    owners[page as usize] = owner_after(entry);
    Ok(())
}

/// Whether an entry fits the owner that it finds.
fn fits(entry: Entry, owner: Owner) -> bool
    ensures { result ≡ fits_owner entry owner }
{
    match (entry, owner) {
        (Entry::Granted(_, _, _), Owner::Untouched) | (Entry::Taken(_, _), Owner::Pool) => true,
        (Entry::Began(_, src, _), Owner::Class(class)) => class == src,
        (Entry::Ended(_, dst), Owner::Moving { src: _, dst: to }) => to == dst,
        _ => false,
    }
}

/// The owner that an entry leaves.
fn owner_after(entry: Entry) -> Owner
    ensures { result ≡ owner_after entry }
{
    match entry {
        Entry::Granted(_, class, _) | Entry::Taken(_, class) => Owner::Class(class),
        Entry::Began(_, src, dst) => Owner::Moving { src, dst },
        Entry::Ended(_, dst) => {
            if dst == 0 {
                Owner::Pool
            } else {
                Owner::Class(dst)
            }
        }
    }
}

//! The state in which every run begins.
ghost use Rattle.std.specs.Prelude.{◌≡◌, ◌*◌, ◌≤◌, [], map, replicate, IfOk, Some};
ghost use Rattle.mc_classes.specs.Limits.{most_hands, most_stripes};
ghost use Rattle.std.specs.List.{range_with_len};
ghost use Rattle.mc_stripe.specs.StripeState.{new_stripe};
ghost use Rattle.mc_classes.specs.Classes.{arena_pages_of};
ghost use Rattle.mc_pages.specs.SlabState.{fresh_slabs};
ghost use Rattle.mc_pages.specs.Accounted.{IsAccounted};
ghost use Rattle.mc_core.specs.model.Head.{uncut_from};
ghost use Rattle.mc_core.specs.model.State.{most_of, new_state};
ghost use Rattle.mc_core.specs.run.Chunks.{most_issue};

use super::State;
use crate::head::Head;
use crate::holding::Holding;
use crate::ids::Ids;
use crate::look::Look;
use crate::series::Series;
use mc_classes::ClassTable;
use mc_memory::{Refused, filled, push};
use mc_pages::Slabs;
use mc_stripe::Stripe;
use std::alloc::Global;

impl State {
    /// All pages are untouched, all locks free, nobody holds anything, and issue numbers count on from this one.
    pub(crate) fn new(
        alloc: Global,
        table: ClassTable,
        stripes: u64,
        hands: u64,
        start: u64,
    ) -> Result<State, Refused>
        requires stripes { (1 ≤ stripes) × (stripes ≤ most_stripes) }
        requires hands { (1 ≤ hands) × (hands ≤ most_hands) }
        requires start { start ≤ most_issue }
        ensures { IfOk result (λ state. state ≡ new_state table stripes hands start) }
    {
        let count = table.arena_pages() * (table.page() / 8);
        let (heads, words, slabs) = new_chunks(alloc, &table, start, count)?;
        let (stripe_locks, stripes) = new_stripes(alloc, stripes)?;
        let (ids, holdings, looks) = new_hands(alloc, hands)?;
        Ok(State {
            alloc,
            table,
            heads,
            words,
            slabs_lock: 0,
            stripe_locks,
            slabs,
            stripes,
            ids,
            holdings,
            looks,
        })
    }
}

/// Headers of all chunks, none of which is cut, n words, and the pages of the chunks.
fn new_chunks(
    alloc: Global,
    table: &ClassTable,
    start: u64,
    count: u64,
) -> Result<(Vec<Head>, Vec<u64>, Slabs), Refused>
    ensures heads { IfOk result (λ new. new.0.items
        ≡ replicate (arena_pages_of table.now * most_of table.now) (uncut_from start)) }
    ensures words { IfOk result (λ new. new.1.items ≡ replicate count 0) }
    ensures slabs { IfOk result (λ new. (new.2.state ≡ fresh_slabs table.now)
        × IsAccounted new.2.state) }
{
    let heads = heads_of(alloc, table, start)?;
    let words = zeros(alloc, count)?;
    let slabs = slabs_of(alloc, table)?;
    Ok((heads, words, slabs))
}

/// The locks of n stripes, all free, and the stripes behind them.
fn new_stripes(alloc: Global, count: u64) -> Result<(Vec<u64>, Vec<Stripe>), Refused>
    ensures locks { IfOk result (λ new. new.0.items ≡ replicate count 0) }
    ensures stripes { IfOk result (λ new. new.1.items ≡ replicate count new_stripe) }
{
    let locks = zeros(alloc, count)?;
    let stripes = stripes_of(alloc, count)?;
    Ok((locks, stripes))
}

/// The rows of n hands: who they are, what they hold, and what they saw.
fn new_hands(
    alloc: Global,
    count: u64,
) -> Result<(Vec<Ids>, Vec<Series<Holding>>, Vec<Series<Look>>), Refused>
    requires { count ≤ 64 }
    ensures ids { IfOk result (λ new. new.0.items
        ≡ map (λ number. record { number = Some number; stamps = 0 }) (range_with_len 0 count)) }
    ensures holdings { IfOk result (λ new. new.1.items ≡ replicate count []) }
    ensures looks { IfOk result (λ new. new.2.items ≡ replicate count []) }
{
    let ids = ids_of(alloc, count)?;
    let holdings = rows_of(alloc, count)?;
    let looks = rows_of(alloc, count)?;
    Ok((ids, holdings, looks))
}

/// A vector of n zeros.
fn zeros(alloc: Global, count: u64) -> Result<Vec<u64>, Refused>
    ensures { IfOk result (λ words. words.items ≡ replicate count 0) }
{
    filled(alloc, 0, count as usize)
}

/// A header for each index of each page, with this issue number.
fn heads_of(alloc: Global, table: &ClassTable, start: u64) -> Result<Vec<Head>, Refused>
    ensures { IfOk result (λ heads. heads.items
        ≡ replicate (arena_pages_of table.now * most_of table.now) (uncut_from start)) }
{
    let count = table.arena_pages() * table.per_page(1);
    let head = Head {
        issue: start,
        ..Head::NEVER_CUT
    };
    filled(alloc, head, count as usize)
}

/// All pages untouched.
fn slabs_of(alloc: Global, table: &ClassTable) -> Result<Slabs, Refused>
    ensures { IfOk result (λ slabs. (slabs.state ≡ fresh_slabs table.now)
        × IsAccounted slabs.state) }
{
    Slabs::new(alloc, table)
}

/// A vector of n stripes, without items.
#[tactic(auto, using(crate::proofs::Steps::Lists::replicate_more))]
fn stripes_of(alloc: Global, count: u64) -> Result<Vec<Stripe>, Refused>
    ensures { IfOk result (λ stripes. stripes.items ≡ replicate count new_stripe) }
{
    let mut stripes = Vec::new(alloc);
    for _ in 0..count {
        push(&mut stripes, Stripe::new(alloc))?;
    }
    Ok(stripes)
}

/// The numbers of n hands, counted from 0.
#[tactic(auto, using(crate::proofs::Steps::Lists::map_range_more))]
fn ids_of(alloc: Global, count: u64) -> Result<Vec<Ids>, Refused>
    requires { count ≤ 64 }
    ensures { IfOk result (λ ids. ids.items ≡ map (λ number.
        record { number = Some number; stamps = 0 }) (range_with_len 0 count)) }
{
    let mut ids = Vec::new(alloc);
    for number in 0..count {
        let number = Some(number as u8);
        push(&mut ids, Ids { number, stamps: 0 })?;
    }
    Ok(ids)
}

/// A vector of n empty rows.
#[tactic(auto, using(crate::proofs::Steps::Lists::replicate_more))]
fn rows_of<T: Drop>(alloc: Global, count: u64) -> Result<Vec<Series<T>>, Refused>
    ensures { IfOk result (λ rows. rows.items ≡ replicate count []) }
{
    let mut rows = Vec::new(alloc);
    for _ in 0..count {
        push(&mut rows, Series::new(alloc))?;
    }
    Ok(rows)
}

//! The calls of the tender: each result has its code.
ghost use Rattle.std.specs.Prelude.{◌≡◌};
ghost use Rattle.mc_c.specs.Codes.{reassign_code};
ghost use Rattle.mc_c.specs.TenderCalls.{CountsAs, ReassignsAs, SetsModeAs, TendsAs, WritesClasses, source_of};

use crate::client::TenderClient;
use crate::codes::{
    BAD_CLASS, BUSY, HELD, NO_MEMORY, NO_SPARE, OK, OUT_OF_RANGE, SAME_CLASS, TOO_SMALL,
};
use mc_cache::{CacheStats, ClassStats, TendedWithin};
use mc_classes::ClassTable;
use mc_mover::SurveyWithin;
use mc_pages::Reassign;

/// What a window of all shards did, as C has it.
#[repr(C)]
#[derive(Clone, Copy)]
pub struct McTended {
    pub found: u64,
    pub began: u64,
    pub ended: u64,
    pub rescued: u64,
    pub evicted: u64,
    pub held: u64,
}

/// What all shards have together, as C has it.
#[repr(C)]
#[derive(Clone, Copy)]
pub struct McTotals {
    pub granted: u64,
    pub pool: u64,
    pub moving: u64,
    pub ended: u64,
    pub rescued: u64,
    pub evicted: u64,
    pub busy: u64,
}

/// What a class has on all shards together, as C has it.
#[repr(C)]
#[derive(Clone, Copy)]
pub struct McClassStats {
    /// The bytes of a chunk.
    pub size: u64,
    /// How many chunks a page has.
    pub per_page: u64,
    pub pages: u64,
    pub free_chunks: u64,
    pub evictions: u64,
}

impl McTended {
    ghost use Rattle.mc_c.specs.TenderCalls.{tended_of};

    fn of(done: TendedWithin) -> McTended
        ensures { result ≡ tended_of done }
    {
        let TendedWithin { tended, held } = done;
        McTended {
            found: tended.found,
            began: tended.began,
            ended: tended.ended,
            rescued: tended.rescued,
            evicted: tended.evicted,
            held,
        }
    }
}

impl McTotals {
    ghost use Rattle.mc_c.specs.TenderCalls.{totals_of};

    fn of(stats: &CacheStats) -> McTotals
        ensures { result ≡ totals_of stats.now }
    {
        McTotals {
            granted: stats.granted,
            pool: stats.pool,
            moving: stats.moving,
            ended: stats.ended,
            rescued: stats.rescued,
            evicted: stats.evicted,
            busy: stats.busy,
        }
    }
}

/// Tends each shard, and writes what was done.
pub(crate) fn tend(client: &mut TenderClient, tries: u64, done: &mut McTended) -> u32
    ensures { TendsAs result tries done.old done.new client.old client.new }
{
    match client.tender.tend_within(&client.cache, tries) {
        Ok(tended) => {
            *done = McTended::of(tended);
            OK
        }
        Err(_) => NO_MEMORY,
    }
}

/// Writes what all shards have together, class by class, and how many classes there are. Where there is too little room, it writes the number
/// alone.
pub(crate) fn stats(
    client: &mut TenderClient,
    tries: u64,
    totals: &mut McTotals,
    classes: &mut [McClassStats],
    count: &mut u64,
) -> u32
    ensures { CountsAs result tries totals.old classes.old count.old totals.new classes.new count.new
        client.old client.new }
{
    let known = client.cache.classes().count();
    if known > classes.len() as u64 {
        *count = known;
        return TOO_SMALL;
    }
    match client.tender.stats_within(&client.cache, tries) {
        Ok(stats) => {
            *count = known;
            *totals = McTotals::of(&stats);
            write_classes(client.cache.classes(), &stats.classes, classes);
            OK
        }
        Err(SurveyWithin::NoMemory(_)) => NO_MEMORY,
        Err(SurveyWithin::Held) => HELD,
    }
}

// Writes each class's numbers in its place, as far as there is room.
fn write_classes(table: &ClassTable, rows: &[ClassStats], into: &mut [McClassStats])
    ensures { WritesClasses table.now rows.now into.old into.new }
{
    let count = (table.count() as usize).min(rows.len()).min(into.len());
    for place in 0..count {
        let class = place as u64 + 1;
        let row = rows[place];
        into[place] = McClassStats {
            size: table.size(class),
            per_page: table.per_page(class),
            pages: row.pages,
            free_chunks: row.free,
            evictions: row.evictions,
        };
    }
}

/// Sets the mode of all shards' automovers.
pub(crate) fn set_automove(client: &mut TenderClient, mode: u64, tries: u64) -> u32
    ensures { SetsModeAs result tries mode client.old client.new }
{
    if mode > 2 {
        return OUT_OF_RANGE;
    }
    match client
        .tender
        .set_automove_within(&client.cache, mode, tries)
    {
        Ok(()) => OK,
        Err(_) => HELD,
    }
}

/// Begins a move of a page of one shard. A source of 0 is one that is picked.
pub(crate) fn reassign(client: &mut TenderClient, shard: u64, src: u64, dst: u64, tries: u64) -> u32
    ensures { ReassignsAs result tries shard src dst client.old client.new }
{
    if shard >= client.cache.shards() as u64 {
        return OUT_OF_RANGE;
    }
    match client
        .tender
        .reassign_within(&client.cache, shard as usize, source_of(src), dst, tries)
    {
        Ok(answer) => code_of_reassign(answer),
        Err(_) => HELD,
    }
}

// The class that a move begins with. 0 is none.
fn source_of(src: u64) -> Option<u64>
    ensures { result ≡ source_of src }
{
    if src == 0 { None } else { Some(src) }
}

// The code of an answer to a request for a move.
fn code_of_reassign(answer: Result<(), Reassign>) -> u32
    ensures { result ≡ reassign_code answer }
{
    match answer {
        Ok(()) => OK,
        Err(Reassign::Busy) => BUSY,
        Err(Reassign::Same) => SAME_CLASS,
        Err(Reassign::BadClass) => BAD_CLASS,
        Err(Reassign::NoSpare) => NO_SPARE,
        Err(Reassign::NoMemory(_)) => NO_MEMORY,
    }
}

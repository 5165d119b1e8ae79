//! The lines that are printed of a round.
use crate::tally::Tally;
use mc_cache::{CacheStats, Tended};
use mc_memory::Refused;
use std::io;

/// A round: what was found, what the tender's window did, and the pages of each class then.
pub fn print_round<R: Print>(
    rt: &R,
    round: u64,
    found: Tally,
    tended: Result<Tended, Refused>,
    stats: Result<CacheStats, Refused>,
) -> io::Result<()> {
    let percent = found.hits.saturating_mul(100).checked_div(found.gets);
    print!(rt; "round {round}: {}% hits", percent.unwrap_or(0))?;
    if let Ok(tended) = tended {
        print!(rt; "; moves {} begun, {} ended", tended.began, tended.ended)?;
        print!(rt; "; {} rescued, {} evicted", tended.rescued, tended.evicted)?;
    }
    if let Ok(stats) = stats {
        print_pages(rt, &stats)?;
    }
    println!(rt; "")
}

/// The pages of each class.
fn print_pages<R: Print>(rt: &R, stats: &CacheStats) -> io::Result<()> {
    print!(rt; "; pages")?;
    for class in &stats.classes {
        print!(rt; " {}", class.pages)?;
    }
    Ok(())
}

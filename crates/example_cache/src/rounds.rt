//! The rounds of a plan, played one after another.
ghost use Rattle.std.specs.Prelude.{All};
ghost use Rattle.mc_cache.specs.Belonging.{BelongsTo};
ghost use Rattle.mc_cache.specs.Tending.{IsTenderOf};

use crate::client::{Client, sum_tallies};
use crate::picture::print_round;
use crate::round::{Load, play_round};
use crate::tally::Tally;
use mc_cache::{Cache, Tender};
use std::io;
use std::sync::Wait;
use std::thread::Threads;

/// How many rounds are played, how many gets each client makes in one, and whether each round is printed.
#[derive(Clone, Copy)]
pub struct Plan {
    pub rounds: u64,
    pub gets: u64,
    pub shows: bool,
}

/// Plays and prints the rounds.
pub fn play_rounds<R: Print + Threads + Wait + Sync>(
    rt: &R,
    cache: &Cache,
    plan: Plan,
    tender: &mut Tender,
    clients: &mut [Client],
) -> io::Result<()>
    requires clients { All (λ client. BelongsTo cache.now client.worker) clients.old }
    requires tender { IsTenderOf cache.now tender.old }
{
    let mut before = Tally::new();
    for round in 0..plan.rounds {
        let wants_long = round >= plan.rounds / 2;
        let gets = plan.gets;
        let tended = play_round(rt, cache, Load { gets, wants_long }, tender, clients);
        let found = sum_tallies(clients);
        if plan.shows {
            let stats = tender.stats(rt, cache);
            print_round(rt, round, found.since(before), tended, stats)?;
        }
        before = found;
    }
    Ok(())
}

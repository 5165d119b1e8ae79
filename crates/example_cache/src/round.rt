//! A round: the gets of all clients, and a window of the tender's beside them, each in a thread of its own.
ghost use Rattle.std.specs.Prelude.{All};
ghost use Rattle.std.specs.Thread.{IsSync};
ghost use Rattle.mc_cache.specs.Belonging.{BelongsTo};
ghost use Rattle.mc_cache.specs.Tending.{IsTenderOf};

use crate::client::{Client, get_often};
use mc_cache::{Cache, Tended, Tender};
use mc_memory::Refused;
use std::sync::Wait;
use std::thread::{Threads, for_each_mut, join_mut};

/// What a round's clients are to do.
#[derive(Clone, Copy)]
pub struct Load {
    /// How many gets each makes.
    pub gets: u64,
    /// Whether most of them want keys with long values.
    pub wants_long: bool,
}

/// All clients' gets, each client's in a thread of its own.
fn get_all<R: Threads + Wait + Sync>(rt: &R, cache: &Cache, load: Load, clients: &mut [Client])
    requires { All (λ client. BelongsTo cache.now client.worker) clients.old }
    ensures { All (λ client. BelongsTo cache.now client.worker) clients.new }
{
    for_each_mut(
        rt,
        clients,
        4,
        &|_place: usize, client: &mut Client|
            requires { BelongsTo cache.now client.now.worker }
            ensures { BelongsTo cache.entry.now client.exit.now.worker }
        { get_often(rt, cache, load, client) },
    );
}

/// All clients' gets, and a window beside them.
pub fn play_round<R: Threads + Wait + Sync>(
    rt: &R,
    cache: &Cache,
    load: Load,
    tender: &mut Tender,
    clients: &mut [Client],
) -> Result<Tended, Refused>
    requires clients { All (λ client. BelongsTo cache.now client.worker) clients.old }
    requires tender { IsTenderOf cache.now tender.old }
    ensures clients { All (λ client. BelongsTo cache.now client.worker) clients.new }
    ensures tender { IsTenderOf cache.now tender.new }
{
    let mut gets = || -> bool
        requires { IsSync R.row × All (λ client. BelongsTo cache.now client.worker) clients.now }
        ensures { All (λ client. BelongsTo cache.entry.now client.worker) clients.exit.now }
    {
        get_all(rt, cache, load, clients);
        true
    };
    let mut window = || -> Result<Tended, Refused>
        requires { IsSync R.row × IsTenderOf cache.now tender.now }
        ensures { IsTenderOf cache.entry.now tender.exit.now }
    { tender.tend(rt, cache) };
    join_mut(rt, &mut gets, &mut window).1
}

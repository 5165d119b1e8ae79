//! A client: a thread's worker, what it draws its keys by, and what it found.
ghost use Rattle.std.specs.Prelude.{◌≡◌, All, IfSome};
ghost use Rattle.mc_cache.specs.Belonging.{BelongsTo};

use crate::keys::{draw_key, make_value};
use crate::round::Load;
use crate::tally::Tally;
use mc_cache::{Cache, Worker};
use mc_memory::push;
use rand_pcg::Pcg32;
use std::alloc::Global;
use std::sync::Wait;

/// A worker that looks up keys, and stores what it misses.
#[derive(Drop)]
pub struct Client {
    pub worker: Worker,
    pub tally: Tally,
    random: Pcg32,
    found: Vec<u8>,
    wanted: Vec<u8>,
}

/// A client with this worker. Each number draws other keys.
pub fn make_client(alloc: Global, worker: Worker, number: u64) -> Client
    ensures { result.worker ≡ worker }
{
    Client {
        worker,
        tally: Tally::new(),
        random: Pcg32::new(number, number),
        found: Vec::new(alloc),
        wanted: Vec::new(alloc),
    }
}

/// A client for each worker; fewer, where memory for their list is refused.
pub fn make_clients(alloc: Global, cache: &Cache, workers: Vec<Worker>) -> Vec<Client>
    requires { All (BelongsTo cache.now) workers.items }
    ensures { All (λ client. BelongsTo cache.now client.worker) result.items }
{
    let mut workers = workers;
    let mut clients = Vec::new(alloc);
    for number in 0..workers.len() as u64 {
        make_next(alloc, cache, &mut workers, &mut clients, number);
    }
    clients
}

/// A client for the worker that is left last, if one is.
fn make_next(
    alloc: Global,
    cache: &Cache,
    workers: &mut Vec<Worker>,
    clients: &mut Vec<Client>,
    number: u64,
)
    requires workers { All (BelongsTo cache.now) workers.old.items }
    requires clients { All (λ client. BelongsTo cache.now client.worker) clients.old.items }
    ensures workers { All (BelongsTo cache.now) workers.new.items }
    ensures clients { All (λ client. BelongsTo cache.now client.worker) clients.new.items }
{
    let Some(worker) = next_worker(cache, workers) else {
        return;
    };
    add_client(cache, clients, make_client(alloc, worker, number));
}

/// One client more, where there is memory for it.
fn add_client(cache: &Cache, clients: &mut Vec<Client>, client: Client)
    requires clients { All (λ client. BelongsTo cache.now client.worker) clients.old.items }
    requires client { BelongsTo cache.now client.worker }
    ensures { All (λ client. BelongsTo cache.now client.worker) clients.new.items }
{
    let _added = push(clients, client);
}

/// The worker that is left last.
fn next_worker(cache: &Cache, workers: &mut Vec<Worker>) -> Option<Worker>
    requires { All (BelongsTo cache.now) workers.old.items }
    ensures workers { All (BelongsTo cache.now) workers.new.items }
    ensures worker { IfSome result (λ worker. BelongsTo cache.now worker) }
{
    if workers.is_empty() {
        None
    } else {
        Some(workers.remove(0))
    }
}

/// What all clients found.
pub fn sum_tallies(clients: &[Client]) -> Tally {
    let mut all = Tally::new();
    for client in clients {
        all = all.and(client.tally);
    }
    all
}

/// A round's gets of one client.
pub fn get_often<R: Wait>(rt: &R, cache: &Cache, load: Load, client: &mut Client)
    requires { BelongsTo cache.now client.old.worker }
    ensures { BelongsTo cache.now client.new.worker }
{
    for _ in 0..load.gets {
        let key = draw_key(&mut client.random, load.wants_long);
        look_up(rt, cache, client, key);
    }
}

/// Gets the key, and looks at each byte that is found. A key that is missed is stored; a refusal leaves that to the next miss.
fn look_up<R: Wait>(rt: &R, cache: &Cache, client: &mut Client, key: u64)
    requires { BelongsTo cache.now client.old.worker }
    ensures { BelongsTo cache.now client.new.worker }
{
    if make_value(&mut client.wanted, key).is_err() {
        client.tally.count_refused();
        return;
    }
    client.found.clear();
    let name = key.to_le_bytes();
    match client.worker.get(rt, cache, &name, &mut client.found) {
        Ok(true) => {
            let wrong = count_wrong(&client.found, &client.wanted);
            client.tally.count_hit(wrong);
        }
        Ok(false) => {
            let _stored = client.worker.set(rt, cache, &name, &client.wanted);
            client.tally.count_miss();
        }
        Err(_) => client.tally.count_refused(),
    }
}

/// How many bytes of the one aren't those of the other.
fn count_wrong(found: &[u8], wanted: &[u8]) -> u64 {
    let longer = found.len().max(wanted.len());
    let mut same: usize = 0;
    for (one, other) in found.iter().zip(wanted) {
        same = same.saturating_add((one == other) as usize);
    }
    longer.saturating_sub(same) as u64
}

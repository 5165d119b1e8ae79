//! The chunks that each worker holds.
ghost use Rattle.std.specs.Prelude.{◌≡◌, ◌<◌, false, Some, IfOk, OnOk, OnErr, length, position, reverse};
ghost use Rattle.std.specs.List.{remove};
ghost use Rattle.mc_pages.specs.ClassState.{is_chunk};
ghost use Rattle.mc_serial_spec.specs.Holds.{no_holds, held_by, is_full, is_held, with_hold, without_hold};

use crate::hold_counts::HoldCounts;
use mc_classes::MOST_REFS;
use mc_memory::{Refused, push, with_capacity};
use mc_pages::ChunkId;
use std::alloc::Global;
use std::marker::Model;

/// How many workers a run has at most, the thread that moves pages counted as worker 0.
const WORKERS: usize = 64;

/// For each worker the chunks that it holds, the one that was taken last standing last.
#[derive(Drop)]
pub struct Holds {
    by_worker: Vec<Vec<ChunkId>>,
    /// The count of the holds of each chunk, so that no list is searched to see whether it is held.
    counts: HoldCounts,
}

impl Model for Holds {
    ghost use Rattle.mc_serial_spec.specs.Holds.{Holds};

    ghost Value = { Holds };

    ghost use Rattle.mc_serial_parts.specs.HoldsKept.{stored_holds, AreHolds};

    ghost view = { stored_holds };

    ghost invariant = { AreHolds };
}

impl Holds {
    /// Nobody holds a chunk.
    pub fn new(alloc: Global) -> Result<Holds, Refused>
        ensures fresh { IfOk result (λ holds. holds ≡ no_holds) }
    {
        let mut by_worker = with_capacity(alloc, WORKERS)?;
        for _ in 0..WORKERS {
            by_worker.push(Vec::new(alloc)).unwrap();
        }
        Ok(Holds {
            by_worker,
            counts: HoldCounts::new(alloc),
        })
    }

    /// Whether the worker can hold no more.
    pub fn is_full(&self, worker: u64) -> bool
        requires { worker < 64 }
        ensures full { result ≡ is_full self.now worker }
    {
        self.by_worker[worker as usize].len() as u64 >= MOST_REFS
    }

    /// Whether somebody holds the chunk.
    pub fn is_held(&self, chunk: ChunkId) -> bool
        ensures held { result ≡ is_held self.now chunk }
    {
        self.counts.of(chunk) > 0
    }

    /// The chunks that the worker holds, the one that it took last standing last.
    pub fn of(&self, worker: u64) -> &[ChunkId]
        requires { worker < 64 }
        ensures chunks { reverse result.now ≡ held_by self.now worker }
    {
        self.by_worker[worker as usize].as_slice()
    }

    /// The worker takes a hold of the chunk.
    pub fn take(&mut self, worker: u64, chunk: ChunkId) -> Result<(), Refused>
        requires worker { worker < 64 }
        requires room { is_full self.old worker ≡ false }
        ensures ok { OnOk result (self.new ≡ with_hold self.old worker chunk) }
        ensures err { OnErr result (self.new ≡ self.old) }
    {
        self.counts.reach(chunk)?;
        push(&mut self.by_worker[worker as usize], chunk)?;
        self.counts.increment(chunk);
        Ok(())
    }

    /// The worker gives back the hold of the chunk that it took last, which is at this place: of all holds of the worker the one
    /// taken last is at 0.
    pub fn give_back(&mut self, worker: u64, chunk: ChunkId, place: usize)
        requires worker { worker < 64 }
        requires first { position (λ c. is_chunk c chunk) (held_by self.old worker) ≡ Some place }
        ensures given_back { self.new ≡ without_hold self.old worker chunk }
    {
        take_out(&mut self.by_worker[worker as usize], place);
        self.counts.decrement(chunk);
    }
}

/// Removes the chunk that has n others behind it.
fn take_out(chunks: &mut Vec<ChunkId>, behind: usize)
    requires { behind < length chunks.old.items }
    ensures removed { reverse chunks.new.items ≡ remove (reverse chunks.old.items) behind }
{
    chunks.remove(chunks.len() - 1 - behind);
}

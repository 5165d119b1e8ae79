//! Where a move hangs: which chunks of the moving page are held, and by whom.
//!
//! A keeper doesn't show in which chunk an item lies. So the commands are done anew on another one, whose mover looks at one chunk a
//! turn, and there the held items are let go one after another: the chunk that can be cleared then is the item's.
ghost use Rattle.std.specs.Prelude.{◌≡◌, ◌≤◌, ◌/◌, All};
ghost use Rattle.mc_script.specs.Command.{IsValid};
ghost use Rattle.mc_map.specs.Kept.{chunks_a_page};

use crate::items::{HeldItem, Items};
use crate::map::MapError;
use mc_classes::{ClassId, ClassTable, Config, ConfigError, MOST_HANDS};
use mc_keeper::{Keeper, Moving, Stop};
use mc_memory::{Refused, from_slice, insert, push};
use mc_options::Run;
use mc_script::Command;
use std::alloc::Global;

/// A chunk that holds a move up.
#[derive(Drop)]
pub struct Blocker {
    /// The index of the chunk on the moving page.
    pub chunk: u64,
    /// The key of the item in it.
    pub key: u64,
    /// Whether the key leads to the item.
    pub linked: bool,
    /// The workers that hold the item, once for each hold.
    pub workers: Vec<u64>,
}

/// Where a move hangs.
#[derive(Drop)]
pub enum Hang {
    /// No page moves.
    Idle,
    /// These chunks hold the move up; where there are none, nothing does.
    Found(Vec<Blocker>),
    /// The search for what holds the move up takes more looks at chunks than a keeper has turns.
    Unknown,
}

/// Why a search for blockers ends without them.
#[derive(Drop)]
enum Lost {
    /// The keeper has no turns left, or isn't as the one that was played.
    Unknown,
    /// No map is shown at all.
    Map(MapError),
}

impl From<MapError> for Lost {
    fn from(error: MapError) -> Lost {
        Lost::Map(error)
    }
}

impl From<Refused> for Lost {
    fn from(refused: Refused) -> Lost {
        Lost::Map(MapError::NoMemory(refused))
    }
}

impl From<Stop> for Lost {
    fn from(stop: Stop) -> Lost {
        match stop {
            Stop::Turns => Lost::Unknown,
            Stop::NoMemory(refused) => Lost::from(refused),
        }
    }
}

/// A keeper whose mover looks at one chunk a turn.
#[derive(Drop)]
struct Probe {
    alloc: Global,
    keeper: Keeper,
    /// How many chunks a turn of the imitated keeper looks at.
    bulk: u64,
}

impl Probe {
    /// Nothing was done yet.
    fn new(alloc: Global, config: &Config, mode: u64) -> Result<Probe, Lost>
        requires { mode ≤ 2 }
    {
        let table = match ClassTable::build(alloc, config) {
            Ok(table) => table,
            Err(ConfigError::NoMemory(refused)) => return Err(Lost::from(refused)),
            Err(_refused) => return Err(Lost::Unknown),
        };
        Ok(Probe {
            alloc,
            keeper: Keeper::new(alloc, table, 1, mode)?,
            bulk: config.bulk,
        })
    }

    /// Does these commands.
    fn play(&mut self, commands: &[Command]) -> Result<(), Lost>
        requires { All IsValid commands.now }
    {
        let mut text = Vec::new(self.alloc);
        for command in commands {
            text.clear();
            match command {
                Command::Turn { turns } => self.turns(*turns)?,
                other => self.keeper.serve(*other, &mut text)?,
            }
        }
        Ok(())
    }

    /// Does n turns as they are with the other's bulk.
    fn turns(&mut self, count: u64) -> Result<(), Lost> {
        for _ in 0..count {
            let Some(moving) = self.keeper.moving() else {
                return Ok(());
            };
            let looks = self.left(moving).min(self.bulk);
            self.look(looks)?;
        }
        Ok(())
    }

    /// How many chunks are left of this pass.
    fn left(&self, moving: Moving) -> u64 {
        chunks_of(self.keeper.table(), moving.src).saturating_sub(moving.at)
    }

    /// Looks at n chunks, and gives those that are held.
    fn look(&mut self, count: u64) -> Result<Vec<u64>, Lost> {
        let mut held = Vec::new(self.alloc);
        for _ in 0..count {
            let Some(moving) = self.keeper.moving() else {
                return Ok(held);
            };
            let (_ending, counts) = self.keeper.turn()?;
            if counts.busy > 0 {
                push(&mut held, moving.at)?;
            }
        }
        Ok(held)
    }

    /// Looks at what is left of this pass, and then at all chunks of the page. Gives those that are held.
    fn pass(&mut self) -> Result<Vec<u64>, Lost> {
        if let Some(moving) = self.keeper.moving() {
            let rest = self.left(moving);
            self.look(rest)?;
        }
        match self.keeper.moving() {
            Some(moving) => {
                let all = self.left(moving);
                self.look(all)
            }
            None => Ok(Vec::new(self.alloc)),
        }
    }

    /// Lets go of the item, whoever holds it.
    fn release(&mut self, held: &HeldItem) {
        for worker in &held.workers {
            if *worker < MOST_HANDS {
                let _words = self.keeper.drop(*worker, held.key);
            }
        }
    }
}

/// How many chunks a page of the class has, and none where there is no such class.
pub(crate) fn chunks_of(table: &ClassTable, class: ClassId) -> u64
    ensures { result ≡ chunks_a_page table.now class }
{
    if class == 0 || class > table.count() {
        return 0;
    }
    table.per_page(class)
}

/// The first of these that isn't among the others.
fn missing(chunks: &[u64], others: &[u64]) -> Option<u64> {
    chunks.iter().copied().find(|chunk| !others.contains(chunk))
}

/// Puts a blocker among those that are found, the first chunk first.
fn put_in(blockers: &mut Vec<Blocker>, blocker: Blocker) -> Result<(), Refused> {
    let place = blockers
        .iter()
        .position(|other| blocker.chunk < other.chunk)
        .unwrap_or(blockers.len());
    insert(blockers, place, blocker)
}

/// The item as what holds this chunk up.
fn blocker_of(
    alloc: Global,
    chunk: u64,
    held: &HeldItem,
    items: &Items,
    keeper: &Keeper,
) -> Result<Blocker, Lost> {
    let linked = items.is_linked(keeper, held)?;
    Ok(Blocker {
        chunk,
        key: held.key,
        linked,
        workers: from_slice(alloc, &held.workers)?,
    })
}

/// The chunks that hold the move up. Of each key the item that was held last is let go first, as a worker's last hold is.
fn blockers_of(
    alloc: Global,
    probe: &mut Probe,
    class: ClassId,
    items: &Items,
    keeper: &Keeper,
) -> Result<Vec<Blocker>, Lost> {
    let mut busy = probe.pass()?;
    let all = busy.len();
    let mut blockers = Vec::new(alloc);
    for held in items.held().iter().rev() {
        if !held.is_of(keeper.table(), class) {
            continue;
        }
        probe.release(held);
        let left = probe.pass()?;
        if let Some(chunk) = missing(&busy, &left) {
            let blocker = blocker_of(alloc, chunk, held, items, keeper)?;
            put_in(&mut blockers, blocker)?;
        }
        busy = left;
    }
    if blockers.len() == all {
        Ok(blockers)
    } else {
        Err(Lost::Unknown)
    }
}

/// Does the commands anew on the probe, and searches there for what holds the move up.
fn blockers_after(
    alloc: Global,
    probe: &mut Probe,
    moving: Moving,
    keeper: &Keeper,
    items: &Items,
    commands: &[Command],
) -> Result<Vec<Blocker>, Lost>
    requires { All IsValid commands.now }
{
    probe.play(commands)?;
    if probe.keeper.moving() != Some(moving) {
        return Err(Lost::Unknown);
    }
    blockers_of(alloc, probe, moving.src, items, keeper)
}

/// Does the commands anew on a probe of its own, and searches there for what holds the move up. The probe is dropped by a call,
/// as its fields are many: where it goes out of scope takes most of a minute to prove.
fn search(
    alloc: Global,
    moving: Moving,
    keeper: &Keeper,
    items: &Items,
    run: &Run,
    commands: &[Command],
) -> Result<Vec<Blocker>, Lost>
    requires mode { run.now.automove ≤ 2 }
    requires valid { All IsValid commands.now }
{
    let mut probe = Probe::new(alloc, &run.config, run.automove)?;
    let found = blockers_after(alloc, &mut probe, moving, keeper, items, commands);
    drop(probe);
    found
}

/// Where the keeper's move hangs. `commands` are those that were done.
pub(crate) fn hang_of(
    alloc: Global,
    keeper: &Keeper,
    items: &Items,
    run: &Run,
    commands: &[Command],
) -> Result<Hang, MapError>
    requires mode { run.now.automove ≤ 2 }
    requires valid { All IsValid commands.now }
{
    let Some(moving) = keeper.moving() else {
        return Ok(Hang::Idle);
    };
    match search(alloc, moving, keeper, items, run, commands) {
        Ok(blockers) => Ok(Hang::Found(blockers)),
        Err(Lost::Unknown) => Ok(Hang::Unknown),
        Err(Lost::Map(error)) => Err(error),
    }
}

//! Two threads share an arena: one stores an item and reads it, while the other takes a page away from the item's class.
//!
//! What is printed is the same under every schedule. Each page has one chunk, and the first of two pages at least begins to move. Where
//! the reader stored first, its item is there: it goes to the chunk that key 2 left, or the page waits while the item is held. Else the
//! item is on a page that stays. No set evicts, as a page is left for each.
#![tactic(auto)]

ghost use Rattle.std.specs.Prelude.{◌≡◌, [], ◌∷◌, IfSome};
ghost use Rattle.mc_words.specs.hand.Hands.{IsNewHand};

use mc_classes::Config;
use mc_items::{delete, get, read, release, set};
use mc_mover::{Turn, reassign, turn};
use mc_words::{Arena, Hand};
use std::alloc::Global;
use std::io;
use std::sync::Wait;
use std::thread::join;

/// Four pages of one chunk, which has room for an item of five words.
const FOUR_PAGES: Config = Config {
    page: 64,
    limit: 256,
    first: 64,
    num: 2,
    den: 1,
    max: 64,
    stripes: 4,
    bulk: 1,
};

/// Stores three words under key 3, gets the key's item and reads it. The words that are returned are these: an item that another
/// hand stored there meanwhile, which has another stamp, isn't returned.
fn read_own<R: Wait>(rt: &R, alloc: Global, arena: &Arena, mut hand: Hand) -> Option<Vec<u64>>
    requires hand { IsNewHand arena.now 0 hand }
    ensures words { IfSome result (λ read. read.items ≡ 7 ∷ 8 ∷ 9 ∷ []) }
{
    let stamp = set(rt, arena, &mut hand, 3, &[7, 8, 9]).ok()?;
    let Ok(Some(item)) = get(rt, arena, &mut hand, 3) else {
        return None;
    };
    let found = read(alloc, arena, &mut hand, &item);
    let own = item.stamp() == stamp;
    release(arena, &mut hand, item);
    if own { found.ok() } else { None }
}

/// Stores two items, each in a page, and deletes the second. Then it begins to move the first page of their class to the pool, and does
/// a turn.
fn move_page<R: Wait>(rt: &R, arena: &Arena, mut hand: Hand) -> Option<Turn>
    requires hand { IsNewHand arena.now 1 hand }
{
    set(rt, arena, &mut hand, 1, &[1]).ok()?;
    set(rt, arena, &mut hand, 2, &[2]).ok()?;
    delete(rt, arena, &mut hand, 2).ok()?;
    reassign(rt, arena, &mut hand, Some(1), 0).ok()?;
    turn(rt, arena, &mut hand).ok()
}

fn main(rt: HostRuntime) -> io::Result<()> {
    let Ok((arena, mut hands)) = Arena::new(rt.alloc(), &FOUR_PAGES, 2) else {
        return Err(io::ErrorKind::OutOfMemory.into());
    };
    let (first, second) = (hands.remove(0), hands.remove(0));
    let (read, _turned) = join(
        &rt,
        || -> Option<Vec<u64>>
            requires { IsNewHand arena 0 first }
        { read_own(&rt, rt.alloc(), &arena, first) },
        || -> Option<Turn>
            requires { IsNewHand arena 1 second }
        { move_page(&rt, &arena, second) },
    );
    println!(rt; "{read:?}")
}

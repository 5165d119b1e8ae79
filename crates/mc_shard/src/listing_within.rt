//! The keys of the items of a stripe, for whose lock a hand tries n times. (own)
ghost use Rattle.std.specs.Prelude.{◌<◌, ◌≡◌, ◌++◌, Err, IfOk, IfSome, None, Ok, OnErr, OnOk, ℕ, List, length};
ghost use Rattle.mc_words.specs.hand.Arenas.{setup_of, view};
ghost use Rattle.mc_words.specs.hand.Observers.{hand_number};
ghost use Rattle.mc_items.specs.Keeping.{StoresNothing};
ghost use Rattle.mc_items.specs.declared.within.error.WithinError.TheVariants as within_error;
ghost use Rattle.mc_shard.specs.Finding.{FindsKey};
ghost use Rattle.mc_shard.specs.Hands.{IsIdleHandOf};
ghost use Rattle.mc_shard.specs.Listing.{FindsNoKey, ListsStripe, LooksUpFirst, MissesListing, MissesLook, PutsKey, PutsSome, bytes_of_keys};
ghost use Rattle.mc_shard.specs.Reading.{LeavesSlabs};
ghost use Rattle.mc_shard.specs.Recording.{RecordsGetAtMost};
ghost use Rattle.mc_shard.specs.Within.{MissesLock};

use crate::hints::{HintTable, Look};
use crate::listing::take_key;
use crate::lookup::item_within;
use crate::try_gets::TryGetError;
use mc_items::{WithinError, keys_of_stripe_within};
use mc_memory::push;
use mc_words::{Arena, Hand};
use std::alloc::Global;

/// The same as `keys`, but the hand tries for the stripe's lock `tries` times at most as the hashes are listed, and as often at each look that no
/// hint leads to an item. It doesn't wait. Where it is refused, no key is put, so that a caller may call again. (own)
pub fn keys_within(
    alloc: Global,
    arena: &Arena,
    hints: &HintTable,
    hand: &mut Hand,
    stripe: u64,
    tries: u64,
    into: &mut Vec<Vec<u8>>,
) -> Result<(), WithinError>
    requires idle { IsIdleHandOf arena.now hand.old }
    requires in_range { stripe < (setup_of arena.now).config.stripes }
    ensures idle { IsIdleHandOf arena.now hand.new }
    ensures number { hand_number hand.new ≡ hand_number hand.old }
    ensures lists { OnOk result (ListsStripe (setup_of arena.now) stripe
        (bytes_of_keys into.old.items) (bytes_of_keys into.new.items) hand.old hand.new) }
    ensures held { result ≡ Err within_error.Held →
        MissesListing (setup_of arena.now) tries stripe hand.old hand.new }
    ensures kept { OnErr result (bytes_of_keys into.new.items ≡ bytes_of_keys into.old.items) }
    ensures stores_nothing { StoresNothing (view hand.old) (view hand.new) }
    ensures slabs { LeavesSlabs (view hand.old) (view hand.new) }
{
    let before = into.len();
    let mut hashes = Vec::new(alloc);
    match keys_of_stripe_within(arena, hand, stripe, tries, &mut hashes) {
        Ok(()) => {}
        Err(error) => return Err(error),
    }
    match keys_under_within(alloc, arena, hints, hand, &hashes, tries, into) {
        Ok(()) => Ok(()),
        Err(error) => {
            into.truncate(before);
            Err(error)
        }
    }
}

// Puts the key of the item under each of these hashes behind the keys that are there.
fn keys_under_within(
    alloc: Global,
    arena: &Arena,
    hints: &HintTable,
    hand: &mut Hand,
    hashes: &[u64],
    tries: u64,
    into: &mut Vec<Vec<u8>>,
) -> Result<(), WithinError>
    requires { IsIdleHandOf arena.now hand.old }
    ensures idle { IsIdleHandOf arena.now hand.new }
    ensures number { hand_number hand.new ≡ hand_number hand.old }
    ensures looks { OnOk result ((keys : List (List ℕ))
        × LooksUpFirst (setup_of arena.now) hashes.now (length hashes.now) keys hand.old hand.new
        × (bytes_of_keys into.new.items ≡ bytes_of_keys into.old.items ++ keys)) }
    ensures held { result ≡ Err within_error.Held →
        MissesLook (setup_of arena.now) tries hashes.now hand.old hand.new }
    ensures refused { OnErr result
        (PutsSome (bytes_of_keys into.old.items) (bytes_of_keys into.new.items)) }
    ensures stores_nothing { StoresNothing (view hand.old) (view hand.new) }
    ensures slabs { LeavesSlabs (view hand.old) (view hand.new) }
{
    for hash in hashes {
        match put_key_within(alloc, arena, hints, hand, *hash, tries, into) {
            Ok(()) => {}
            Err(error) => return Err(error),
        }
    }
    Ok(())
}

// Puts the key of the item under the hash behind the keys that are there, if there is one. Where it is refused, the keys stay.
fn put_key_within(
    alloc: Global,
    arena: &Arena,
    hints: &HintTable,
    hand: &mut Hand,
    hash: u64,
    tries: u64,
    into: &mut Vec<Vec<u8>>,
) -> Result<(), WithinError>
    requires { IsIdleHandOf arena.now hand.old }
    ensures idle { IsIdleHandOf arena.now hand.new }
    ensures number { hand_number hand.new ≡ hand_number hand.old }
    ensures puts { OnOk result (PutsKey (setup_of arena.now) hash (bytes_of_keys into.old.items)
        (bytes_of_keys into.new.items) hand.old hand.new) }
    ensures held { result ≡ Err within_error.Held →
        MissesLock (setup_of arena.now) tries hash hand.old hand.new }
    ensures refused { OnErr result (into.new.items ≡ into.old.items) }
    ensures stores_nothing { StoresNothing (view hand.old) (view hand.new) }
    ensures slabs { LeavesSlabs (view hand.old) (view hand.new) }
{
    match key_under_within(alloc, arena, hints, hand, hash, tries) {
        Ok(Some(key)) => match push(into, key) {
            Ok(()) => Ok(()),
            Err(refused) => Err(WithinError::NoMemory(refused)),
        },
        Ok(None) => Ok(()),
        Err(error) => Err(error),
    }
}

// The key of the item under the hash, if there is one.
fn key_under_within(
    alloc: Global,
    arena: &Arena,
    hints: &HintTable,
    hand: &mut Hand,
    hash: u64,
    tries: u64,
) -> Result<Option<Vec<u8>>, WithinError>
    requires { IsIdleHandOf arena.now hand.old }
    ensures idle { IsIdleHandOf arena.now hand.new }
    ensures number { hand_number hand.new ≡ hand_number hand.old }
    ensures key { IfOk result (λ found. IfSome found (λ key.
        FindsKey (setup_of arena.now) hash key.items hand.old)) }
    ensures none { result ≡ Ok None → FindsNoKey (setup_of arena.now) hash hand.old }
    ensures held { result ≡ Err within_error.Held →
        MissesLock (setup_of arena.now) tries hash hand.old hand.new }
    ensures calls { RecordsGetAtMost (setup_of arena.now) hash hand.old hand.new }
    ensures stores_nothing { StoresNothing (view hand.old) (view hand.new) }
    ensures slabs { LeavesSlabs (view hand.old) (view hand.new) }
{
    match item_within(arena, hints, hand, hash, tries, Look::Peek) {
        Ok(Some(item)) => match take_key(alloc, arena, hand, item) {
            Ok(key) => Ok(key),
            Err(refused) => Err(WithinError::NoMemory(refused)),
        },
        Ok(None) => Ok(None),
        Err(TryGetError::NoMemory(refused)) => Err(WithinError::NoMemory(refused)),
        Err(TryGetError::Held) => Err(WithinError::Held),
    }
}

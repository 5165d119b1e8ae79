//! The text of what is behind the lock of a stripe.
ghost use Rattle.std.specs.Prelude.{◌≡◌, ◌++◌, [], flat_map, map, IfOk, OnOk, string_bytes};
ghost use Rattle.mc_stripe.specs.Entries.{by_key};
ghost use Rattle.mc_stripe.specs.StripeState.{history_tail};
ghost use Rattle.mc_replay.specs.Written.{call_line, call_text, index_line, keys_text, left_keys, stripe_text, trimmed_line, keys_with_stored};

use mc_pages::ChunkId;
use mc_stripe::{Call, Key, Stamp, Stripe};
use std::alloc::{AllocError, Global};
use std::collections::BTreeSet;

/// The index of a stripe, by rising key, how many of its calls were trimmed, and its history behind them.
pub(super) fn stripe(
    alloc: Global,
    text: &mut String,
    number: u64,
    stripe: &Stripe,
) -> Result<(), AllocError>
    ensures { OnOk result (string_bytes text.new ≡ string_bytes text.old
        ++ stripe_text number stripe.now.state) }
{
    // Each key of the index was stored once, as the history is legal: by a call that is recorded, or by one of those that left the base.
    let keys = stored_keys(alloc, stripe)?;
    places(text, number, stripe, &keys)?;
    trimmed_line(text, number, stripe.trimmed())?;
    history(text, number, stripe.history())
}

/// The keys that trimmed calls left and those under which something was stored since, by rising key.
fn stored_keys(alloc: Global, stripe: &Stripe) -> Result<Vec<Key>, AllocError>
    ensures { IfOk result (λ keys. keys.items ≡ keys_with_stored (left_keys stripe.now.state)
        (history_tail stripe.now.state)) }
{
    let mut keys = BTreeSet::new(alloc);
    add_left(&mut keys, stripe.base().unwrap_or(&[]))?;
    add_stored(&mut keys, stripe.history())?;
    keys.iter().copied().collect(alloc)
}

/// Adds the keys of these entries to none, from the last on.
fn add_left(keys: &mut BTreeSet<Key>, base: &[(Key, Stamp)]) -> Result<(), AllocError>
    requires none { keys.old.keys ≡ [] }
    ensures { OnOk result (keys.new.keys ≡ map (λ entry. entry.0) (by_key base.now)) }
{
    let mut place = base.len();
    while place > 0 {
        place -= 1;
        keys.insert(base[place].0)?;
    }
    Ok(())
}

/// Adds the keys under which something was stored.
fn add_stored(keys: &mut BTreeSet<Key>, history: &[Call]) -> Result<(), AllocError>
    ensures { OnOk result (keys.new.keys ≡ keys_with_stored keys.old.keys history.now) }
{
    for call in history {
        if let Call::Set(_, key, _) = *call {
            keys.insert(key)?;
        }
    }
    Ok(())
}

/// Where these keys lead.
fn places(text: &mut String, number: u64, stripe: &Stripe, keys: &[Key]) -> Result<(), AllocError>
    ensures { OnOk result (string_bytes text.new ≡ string_bytes text.old
        ++ keys_text number stripe.now.state keys.now) }
{
    for key in keys {
        place(text, number, *key, stripe.find(*key))?;
    }
    Ok(())
}

/// Where a key leads, if it leads anywhere.
fn place(
    text: &mut String,
    number: u64,
    key: Key,
    place: Option<(ChunkId, Stamp)>,
) -> Result<(), AllocError>
    ensures { OnOk result (string_bytes text.new ≡ string_bytes text.old
        ++ index_line number key place) }
{
    let Some((ChunkId { page, index }, stamp)) = place else {
        return Ok(());
    };
    write!(text, "index {number} {key}")?;
    writeln!(text, " {page} {index} {stamp}")
}

/// How many calls of a stripe were trimmed, where some were.
fn trimmed_line(text: &mut String, number: u64, count: u64) -> Result<(), AllocError>
    ensures { OnOk result (string_bytes text.new ≡ string_bytes text.old
        ++ trimmed_line number count) }
{
    if count == 0 {
        return Ok(());
    }
    writeln!(text, "trimmed {number} {count}")
}

/// The calls on the keys of a stripe.
fn history(text: &mut String, number: u64, calls: &[Call]) -> Result<(), AllocError>
    ensures { OnOk result (string_bytes text.new ≡ string_bytes text.old
        ++ flat_map (call_line number) calls.now) }
{
    for call in calls {
        write!(text, "history {number} ")?;
        reply(text, *call)?;
    }
    Ok(())
}

/// A call and its reply.
fn reply(text: &mut String, call: Call) -> Result<(), AllocError>
    ensures { OnOk result (string_bytes text.new ≡ string_bytes text.old ++ call_text call) }
{
    match call {
        Call::Set(hand, key, stamp) => writeln!(text, "Set {hand} {key} {stamp}"),
        Call::Get(hand, key, Some(stamp)) => writeln!(text, "Get {hand} {key} {stamp}"),
        Call::Get(hand, key, None) => writeln!(text, "Get {hand} {key} none"),
        Call::Delete(hand, key, true) => writeln!(text, "Delete {hand} {key} true"),
        Call::Delete(hand, key, false) => writeln!(text, "Delete {hand} {key} false"),
        Call::Evict(hand, key) => writeln!(text, "Evict {hand} {key}"),
        Call::Rescue(hand, key) => writeln!(text, "Rescue {hand} {key}"),
    }
}

//! The texts of refusals.
use mc_cache::{CallError, NewError, SetError, TryGetError};
use mc_classes::ConfigError;
use std::alloc::Global;
use std::fmt::Display;
use std::process::Abort;
use std::test::Fail;
use testlib_values::too_much;

/// What every call reports of a key that is too short or too long.
const KEY_LENGTH: &str = "a key must have from 1 to 250 bytes; nothing was done";

/// The text of an error by the lengths of key and value.
const LARGE: &str = "the value isn't stored: no class has chunks of that size";

/// The refusal has this text.
fn assert_told<E: Display + Drop>(
    rt: &impl Abort,
    alloc: Global,
    refusal: E,
    words: &str,
) -> Result<(), Fail> {
    let text = refusal.to_string(alloc)?;
    assert!(rt; text.as_str() == words, "the text of a refusal");
    Ok(())
}

/// Why no cache is made.
fn assert_new_told(rt: &impl Abort, alloc: Global) -> Result<(), Fail> {
    assert_told(
        rt,
        alloc,
        NewError::Shards,
        "the number of shards must be from 1 to 4096",
    )?;
    assert_told(
        rt,
        alloc,
        NewError::Workers,
        "the number of workers must be from 1 to 63",
    )?;
    let memory = NewError::NoMemory(too_much(alloc)?);
    assert_told(rt, alloc, memory, "out of memory")?;
    let limit = ConfigError::Limit.to_string(alloc)?;
    let config = NewError::Config(ConfigError::Limit);
    assert_told(rt, alloc, config, limit.as_str())
}

/// Why a value isn't stored.
fn assert_set_told(rt: &impl Abort, alloc: Global) -> Result<(), Fail> {
    assert_told(rt, alloc, SetError::KeyLength, KEY_LENGTH)?;
    let large = mc_items::SetError::TooLarge;
    assert_told(rt, alloc, SetError::Item(large), LARGE)?;
    let memory = mc_items::SetError::NoMemory(too_much(alloc)?);
    assert_told(
        rt,
        alloc,
        SetError::Item(memory),
        "the value isn't stored: out of memory",
    )
}

/// Why another call isn't done.
fn assert_calls_told(rt: &impl Abort, alloc: Global) -> Result<(), Fail> {
    assert_told(rt, alloc, CallError::KeyLength, KEY_LENGTH)?;
    let memory = CallError::NoMemory(too_much(alloc)?);
    assert_told(rt, alloc, memory, "out of memory; the key has what it had")?;
    assert_told(
        rt,
        alloc,
        TryGetError::Held,
        "another worker has the lock of the key's stripe; the key has what it had",
    )
}

/// The text of each refusal, and that of another crate in it where there is one.
#[test]
fn refusals_in_words(rt: HostRuntime) -> Result<(), Fail> {
    assert_new_told(&rt, rt.alloc())?;
    assert_set_told(&rt, rt.alloc())?;
    assert_calls_told(&rt, rt.alloc())
}

//! Walks over the keys of stripes, of which one key is aside now and then.
use super::{Both, assert_same, call_both};
use mc_stripe::{Key, NoMemory};
use rand_pcg::Pcg32;
use std::process::Abort;
use std::test::Fail;

/// The stripe has as many keys as the plain list, and the same ones. The key aside isn't among them.
fn assert_same_keys(rt: &impl Abort, both: &Both, keys: &mut Vec<Key>) -> Result<(), NoMemory> {
    keys.clear();
    if both.stripe.keys_into(keys).is_err() {
        both.stripe.keys_into(keys)?;
    }
    let wanted = both.plain.items.len();
    let found = (both.stripe.key_count(), keys.len());
    assert_same(rt, found, (wanted, wanted), "key_count and keys_into");
    let items = both.plain.items.as_slice();
    let found = items.iter().all(|item| keys.contains(&item.key));
    assert_same(rt, found, true, "keys_into");
    let found = match both.stripe.first_key() {
        Some(key) => both.plain.find(key).is_some(),
        None => wanted == 0,
    };
    assert_same(rt, found, true, "first_key");
    Ok(())
}

/// How often a key was aside behind 1,000 calls of both, drawn by this number.
fn count_asides(
    rt: &impl Abort,
    both: &mut Both,
    keys: &mut Vec<Key>,
    seed: u64,
) -> Result<u64, Fail> {
    let mut random = Pcg32::new(seed, 1);
    let mut asides: u64 = 0;
    for number in 0..1000 {
        call_both(rt, both, &mut random, number)?;
        assert_same_keys(rt, both, keys)?;
        if both.stripe.aside().is_some() {
            asides = asides.saturating_add(1);
        }
    }
    Ok(asides)
}

#[test]
fn walks_pass_the_key_aside_over(rt: HostRuntime) -> Result<(), Fail> {
    let mut both = Both::new(rt.alloc());
    let mut keys: Vec<Key> = Vec::new(rt.alloc());
    let counted = count_asides(&rt, &mut both, &mut keys, 5);
    drop(both);
    assert_same(&rt, counted? > 100, true, "a key was often aside");
    Ok(())
}

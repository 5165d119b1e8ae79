//! Drawn changes of one worker against a model of one value.
ghost use Rattle.mc_cache.specs.Belonging.{BelongsTo};

use super::made::{KEY, pass_if, with_one_worker};
use mc_cache::{Cache, Worker};
use mc_update::Updater;
use rand_core::Rng;
use rand_pcg::Pcg32;
use std::sync::Wait;
use std::test::Fail;

/// How many changes are drawn.
const CALLS: u64 = 1000;

/// What the key has: a number, or no value.
#[derive(Clone, Copy, PartialEq, Eq)]
struct Model {
    number: Option<u64>,
}

impl Model {
    /// The model behind this change of its number.
    fn after(self, kind: u64, by: u64) -> Model {
        let number = match kind {
            0 => self.number.map(|number| number.saturating_sub(by)),
            _ => self.number.map(|number| number.wrapping_add(by)),
        };
        Model { number }
    }
}

/// One drawn change, or a delete or a new 0. True if it returned what the model has behind it.
fn act<R: Wait>(
    rt: &R,
    cache: &Cache,
    worker: &mut Worker,
    updater: &mut Updater,
    random: &mut Pcg32,
    model: &mut Model,
) -> bool
    requires { BelongsTo cache.now worker.old }
    ensures { BelongsTo cache.now worker.new }
{
    let by = random.next_u64() >> (random.next_u64() % 64);
    match random.next_u64() % 16 {
        0 => {
            *model = Model { number: None };
            worker.delete(rt, cache, KEY).is_ok()
        }
        1 => {
            *model = Model { number: Some(0) };
            worker.set(rt, cache, KEY, b"0").is_ok()
        }
        kind if kind % 2 == 0 => {
            *model = model.after(0, by);
            updater.decrement(rt, cache, worker, KEY, by) == Ok(model.number)
        }
        _ => {
            *model = model.after(1, by);
            updater.increment(rt, cache, worker, KEY, by) == Ok(model.number)
        }
    }
}

/// All calls, before one that returned what the model hasn't. True if none did.
fn act_often<R: Wait>(rt: &R, cache: &Cache, worker: &mut Worker, updater: &mut Updater) -> bool
    requires { BelongsTo cache.now worker.old }
{
    let mut random = Pcg32::new(11, 0);
    let mut model = Model { number: None };
    for _ in 0..CALLS {
        if !act(rt, cache, worker, updater, &mut random, &mut model) {
            return false;
        }
    }
    true
}

#[test]
fn drawn_counts_are_the_models(rt: HostRuntime) -> Result<(), Fail> {
    let (cache, mut worker) = with_one_worker(&rt, rt.alloc())?;
    let mut updater = Updater::new(rt.alloc());
    let right = act_often(&rt, &cache, &mut worker, &mut updater);
    pass_if(right, "a count returned another number than the model's")
}

//! The set of a worker that stores only on a condition, within n tries for each lock. (own)
use crate::cache::{Cache, Worker};
use crate::resting::recall;
use crate::working_within::SetWithinError;
use mc_shard::{Label, Outcome, When};

impl Worker {
    ghost use Rattle.std.specs.Prelude.{◌≡◌, ◌↔◌, Err, length};
    ghost use Rattle.mc_items.specs.declared.setting.SetError.TheVariants as item_error;
    ghost use Rattle.mc_cache.specs.Belonging.{KeepsHands};
    ghost use Rattle.mc_cache.specs.Conditional.{SetsValueIfWithin};
    ghost use Rattle.mc_cache.specs.Resting.{ActsAgain, RestsIn};
    ghost use Rattle.mc_cache.specs.Shards.{IsKey};
    ghost use Rattle.mc_cache.specs.Sizes.{LacksClassIn};
    ghost use Rattle.mc_cache.specs.declared.working_within.SetWithinError.TheVariants as set_error;

    /// The same as [`Worker::set_if`], but the worker tries for each lock `tries` times at most, and doesn't wait. (own)
    pub fn set_if_within(
        &mut self,
        cache: &Cache,
        key: &[u8],
        value: &[u8],
        when: When,
        tries: u64,
    ) -> Result<Outcome, SetWithinError>
        requires { RestsIn cache.now self.old }
        ensures rests { RestsIn cache.now self.new }
        ensures key { (result ≡ Err set_error.KeyLength) ↔ ¬ IsKey key.now }
        ensures too_large { result ≡ Err (set_error.Item item_error.TooLarge) →
            LacksClassIn cache.now (length key.now) (length value.now) }
        ensures same { ¬ IsKey key.now → KeepsHands self.old self.new }
        ensures acts { IsKey key.now → ActsAgain
            cache.now key.now (λ hash. SetsValueIfWithin tries hash key.now value.now when result)
            self.old self.new }
    {
        let Some(at) = cache.place_of(key) else {
            return Err(SetWithinError::KeyLength);
        };
        let arena = &cache.arenas[at.shard];
        let hand = &mut self.hands[at.shard];
        recall(arena, hand);
        let label = Label { hash: at.hash, key };
        let words = &mut self.words;
        match mc_shard::set_if_within(arena, &cache.hints, hand, label, value, words, when, tries) {
            Ok(outcome) => Ok(outcome),
            Err(mc_items::SetWithinError::Refused(error)) => Err(SetWithinError::Item(error)),
            Err(mc_items::SetWithinError::Held) => Err(SetWithinError::Held),
        }
    }
}

//! Arenas that are made, with all their hands.
ghost use Rattle.std.specs.Prelude.{◌≡◌, ◌+◌, ◌-◌, ◌<◌, ◌≤◌, None, Some, IfOk, IfErr, OnOk};
ghost use Rattle.std.specs.Option.{unwrap_or};
ghost use Rattle.mc_classes.specs.Classes.{IsSound};
ghost use Rattle.mc_words.specs.hand.Arenas.{IsHandOf, setup_of, view};
ghost use Rattle.mc_words.specs.hand.Hands.{AreNewHands, IsMadeWith};
ghost use Rattle.mc_words.specs.rule.Beginning.{first_view, one_made};
ghost use Rattle.mc_words.specs.rule.Refused.{arena_refusal};
ghost use Rattle.mc_words.specs.hand.View.{new_view};
ghost use Rattle.mc_words.specs.declared.arena.refusal.NewError.TheVariants as refused;

use crate::arena::Arena;
use crate::arena::plan::Plan;
use crate::arena::refusal::NewError;
use crate::hand::Hand;
use crate::hand::kept_chunk::KeptChunk;
use crate::lock::locks::Locks;
use crate::rule::HandView;
use atomic_table::Split;
use mc_classes::{ClassTable, Config, ConfigError, MOST_HANDS};
use mc_memory::{Refused, insert, with_capacity};
use std::alloc::Global;

/// The greatest issue number.
const MOST_ISSUE: u64 = 70_368_744_177_663;

/// The first hand makes another, which did nothing yet.
pub struct MakeHand;

impl Split<HandView> for MakeHand {
    ghost use Rattle.mc_words.specs.rule.Beginning.{next_view, one_made};

    ghost left = { one_made };

    ghost right = { next_view };
}

impl Arena {
    /// An arena in which no page was granted, and its hands, that of number 0 first. The configuration is refused by the first
    /// of its tests that it fails, and then come those of `NewError`. (slabs.c's `slabs_init`, without preallocation)
    pub fn new(alloc: Global, config: &Config, hands: u64) -> Result<(Arena, Vec<Hand>), NewError>
        ensures accepted { IfOk result (λ made. arena_refusal config.now hands 0 ≡ None) }
        ensures setup { IfOk result (λ made. IsMadeWith config.now hands 0 (setup_of made.0)) }
        ensures hands { IfOk result (λ made. AreNewHands made.0 made.1.items) }
        ensures refused { IfErr result (λ error. error
            ≡ unwrap_or (arena_refusal config.now hands 0) (refused.NoMemory tt)) }
    {
        Arena::from_issue(alloc, config, hands, 0)
    }

    /// An arena as `new` makes it, but each chunk begins with this issue number, at most 2^46 - 1, and not with 0 (own).
    pub fn from_issue(
        alloc: Global,
        config: &Config,
        hands: u64,
        start: u64,
    ) -> Result<(Arena, Vec<Hand>), NewError>
        ensures accepted { IfOk result (λ made. arena_refusal config.now hands start ≡ None) }
        ensures setup { IfOk result (λ made. IsMadeWith config.now hands start (setup_of made.0)) }
        ensures hands { IfOk result (λ made. AreNewHands made.0 made.1.items) }
        ensures refused { IfErr result (λ error. error
            ≡ unwrap_or (arena_refusal config.now hands start) (refused.NoMemory tt)) }
    {
        test(config, hands, start)?;
        let classes = match ClassTable::build(alloc, config) {
            Ok(classes) => classes,
            Err(ConfigError::NoMemory(refused)) => return Err(NewError::NoMemory(refused)),
            Err(_) => unreachable!(),
        };
        let plan = Plan::new(*config, classes, hands, start);
        let (arena, first) = Arena::open(alloc, plan)?;
        let all = arena.all_hands(alloc, first)?;
        Ok((arena, all))
    }

    // All hands of a new arena: the first one makes the others.
    fn all_hands(&self, alloc: Global, first: Hand) -> Result<Vec<Hand>, Refused>
        requires arena { IsHandOf self.now first }
        requires first { view first ≡ first_view (setup_of self.now) }
        ensures hands { IfOk result (λ hands. AreNewHands self.now hands.items) }
    {
        let mut first = first;
        let count = self.plan.hands();
        let mut all = with_capacity(alloc, count as usize)?;
        for number in 1..count {
            let hand = self.make(&mut first, number);
            all.push_reserved(hand);
        }
        insert(&mut all, 0, first)?;
        Ok(all)
    }

    // A hand more, which the first one makes.
    fn make(&self, first: &mut Hand, number: u64) -> Hand
        requires arena { IsHandOf self.now first.old }
        requires first { view first.old ≡ new_view (setup_of self.now) 0
            ((setup_of self.now).hands - number) }
        requires number { (1 ≤ number) × (number < (setup_of self.now).hands) }
        ensures arena { IsHandOf self.now first.new × IsHandOf self.now result }
        ensures first { view first.new ≡ new_view (setup_of self.now) 0
            ((setup_of self.now).hands - (1 + number)) }
        ensures made { view result ≡ new_view (setup_of self.now) number 0 }
    {
        let seat = self.table.shared.split_seat::<MakeHand>(&mut first.seat);
        Hand {
            seat,
            number,
            chunks: 0,
            locks: Locks::Neither,
            stamps: 0,
            fresh: 0,
            dead: KeptChunk::new(),
        }
    }
}

// The tests, in their order, before anything is allocated.
fn test(config: &Config, hands: u64, start: u64) -> Result<(), NewError>
    ensures accepted { OnOk result (arena_refusal config.now hands start ≡ None) }
    ensures refused { IfErr result (λ error. arena_refusal config.now hands start ≡ Some error) }
{
    if let Err(error) = config.test() {
        return Err(NewError::Config(error));
    }
    if hands < 1 || hands > MOST_HANDS {
        return Err(NewError::Hands);
    }
    if start > MOST_ISSUE {
        return Err(NewError::Issue);
    }
    Ok(())
}

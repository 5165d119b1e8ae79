//! The first words and slots of an arena's table, and its first hand.
ghost use Rattle.std.specs.Prelude.{◌≡◌, ◌+◌, ◌*◌, ◌^◌, ◌<◌, ◌≤◌, ◌∷◌, ◌++◌, replicate, IfOk, OnOk};
ghost use Rattle.mc_classes.specs.Limits.{most_hands, most_stripes};
ghost use Rattle.mc_classes.specs.Classes.{IsSound};
ghost use Rattle.mc_core.specs.run.Chunks.{most_issue};
ghost use Rattle.mc_words.specs.hand.Arenas.{IsHandOf, setup_of, view};
ghost use Rattle.mc_words.specs.rule.Layout.{word_count};
ghost use Rattle.mc_words.specs.lock.Slots.{slots_between};
ghost use Rattle.mc_words.specs.declared.lock.slot.Slot.TheVariants.{Empty};
ghost use Rattle.mc_words.specs.rule.Places.{ArePlaces};
ghost use Rattle.mc_words.specs.rule.Beginning.{first_slots, first_view, first_words};

use crate::arena::Arena;
use crate::arena::plan::Plan;
use crate::chunk::hints::Hints;
use crate::hand::Hand;
use crate::hand::kept_chunk::KeptChunk;
use crate::header::ISSUE_UNIT;
use crate::lock::boxed_stripe::BoxedStripe;
use crate::lock::contention::Contention;
use crate::lock::locks::{Locks, SLOTS_BETWEEN, WORDS_APART};
use crate::lock::slot::Slot;
use mc_memory::{Refused, extend_from_slice, push, resize, table};
use mc_pages::{NoMemory, SharedSlabs, Slabs};
use mc_stripe::Stripe;
use std::alloc::Global;

/// Where the groups of words begin.
#[derive(Clone, Copy)]
pub(crate) struct Places {
    pub(crate) pages: usize,
    pub(crate) heads: usize,
    pub(crate) data: usize,
    pub(crate) config: usize,
}

// The words at first.
fn words_of(alloc: Global, plan: &Plan, places: Places) -> Result<Vec<u64>, Refused>
    requires places { ArePlaces plan.now places }
    ensures words { IfOk result (λ words. words.items ≡ first_words plan.now) }
{
    let mut words = Vec::new(alloc);
    resize(&mut words, places.heads, 0)?;
    resize(&mut words, places.data, plan.start() * ISSUE_UNIT)?;
    resize(&mut words, places.config, 0)?;
    let config = plan.config();
    let numbers = [
        config.page,
        config.limit,
        config.first,
        config.num,
        config.den,
        config.max,
        config.stripes,
        config.bulk,
    ];
    extend_from_slice(&mut words, &numbers)?;
    Ok(words)
}

// Puts the value behind a lock into the next slot, and nothing into those between it and the next value.
fn push_apart(slots: &mut Vec<Slot>, value: Slot) -> Result<(), Refused>
    ensures slots { OnOk result (slots.new.items ≡ slots.old.items
        ++ value ∷ replicate slots_between Empty) }
{
    push(slots, value)?;
    for _between in 0..SLOTS_BETWEEN {
        push(slots, Slot::Empty)?;
    }
    Ok(())
}

// The values at home at first.
fn slots_of(alloc: Global, plan: &Plan) -> Result<Vec<Slot>, Refused>
    ensures slots { IfOk result (λ slots. slots.items ≡ first_slots plan.now) }
{
    let slabs = Slabs::new(alloc, plan.classes())?;
    let shared = SharedSlabs::new(alloc, slabs)?;
    let mut slots = Vec::new(alloc);
    push_apart(&mut slots, Slot::OfSlabs(shared))?;
    for _stripe in 0..plan.config().stripes {
        let stripe = BoxedStripe::new(alloc, Stripe::new(alloc))?;
        push_apart(&mut slots, Slot::OfStripe(stripe))?;
    }
    Ok(slots)
}

impl Plan {
    /// Where the groups of words begin.
    pub(crate) fn places(&self) -> Places
        ensures places { ArePlaces self.now result }
        ensures small { word_count self.now < 2 ^ 63 }
        ensures sound { IsSound self.now.table }
        ensures stripes { (1 ≤ self.now.config.stripes) × (self.now.config.stripes ≤ most_stripes) }
        ensures hands { (1 ≤ self.now.hands) × (self.now.hands ≤ most_hands) }
        ensures start { self.now.start ≤ most_issue }
    {
        let classes = self.classes();
        let count = classes.arena_pages();
        let pages = WORDS_APART as u64 * (2 + self.config().stripes);
        let heads = pages + count;
        let data = heads + count * classes.per_page(1);
        let config = data + count * (classes.page() / 8);
        Places {
            pages: pages as usize,
            heads: heads as usize,
            data: data as usize,
            config: config as usize,
        }
    }
}

impl Arena {
    // An arena in which nothing was done, and its first hand.
    pub(crate) fn open(alloc: Global, plan: Plan) -> Result<(Arena, Hand), NoMemory>
        ensures arena { IfOk result (λ opened. IsHandOf opened.0 opened.1
            × (setup_of opened.0 ≡ plan)) }
        ensures view { IfOk result (λ opened. view opened.1 ≡ first_view plan) }
    {
        let places = plan.places();
        let words = words_of(alloc, &plan, places)?;
        let slots = slots_of(alloc, &plan)?;
        let (table, seat) = table(alloc, words.as_slice(), slots, &plan)?;
        let hints = Hints::new(alloc)?;
        let arena = Arena {
            most: plan.classes().per_page(1) as usize,
            words_a_page: plan.classes().page() / 8,
            first_page: places.pages,
            first_head: places.heads,
            first_data: places.data,
            hints,
            contention: Contention::new(),
            table,
            plan,
        };
        let hand = Hand {
            seat,
            number: 0,
            chunks: 0,
            locks: Locks::Neither,
            stamps: 0,
            fresh: 0,
            dead: KeptChunk::new(),
        };
        Ok((arena, hand))
    }
}

//! What an arena is made with: its configuration, its classes, the number of hands and the first issue number.
ghost use Rattle.std.specs.Prelude.{◌≡◌, ◌≤◌};
ghost use Rattle.mc_classes.specs.Limits.{most_hands, most_stripes};
ghost use Rattle.mc_core.specs.run.Chunks.{most_issue};

use mc_classes::{ClassTable, Config};
use std::marker::Model;

/// The configuration, its size classes, how many hands there are, and the issue number of each chunk at first.
#[derive(Drop)]
pub(crate) struct Plan {
    config: Config,
    classes: ClassTable,
    hands: u64,
    start: u64,
}

impl Model for Plan {
    ghost use Rattle.std.specs.Prelude.{◌≤◌};
    ghost use Rattle.mc_classes.specs.Limits.{most_hands, most_stripes};
    ghost use Rattle.mc_core.specs.run.Chunks.{most_issue};
    ghost use Rattle.mc_words.specs.hand.View.{Setup};

    ghost Value = { Setup };

    ghost view = { λ p. record { config = p.config; table = p.classes; hands = p.hands; start = p.start } };

    ghost invariant = { λ p. (1 ≤ p.config.stripes) × (p.config.stripes ≤ most_stripes) × (1 ≤ p.hands) × (p.hands ≤ most_hands) × (p.start ≤ most_issue) };
}

impl Plan {
    pub(crate) fn new(config: Config, classes: ClassTable, hands: u64, start: u64) -> Plan
        requires stripes { (1 ≤ config.stripes) × (config.stripes ≤ most_stripes) }
        requires hands { (1 ≤ hands) × (hands ≤ most_hands) }
        requires start { start ≤ most_issue }
        ensures plan { result
            ≡ record { config = config; table = classes; hands = hands; start = start } }
    {
        Plan {
            config,
            classes,
            hands,
            start,
        }
    }

    /// How many hands the arena has.
    pub(crate) fn hands(&self) -> u64
        ensures hands { result ≡ self.now.hands }
        ensures within_limit { (1 ≤ result) × (result ≤ most_hands) }
    {
        self.hands
    }

    /// The issue number of each chunk at first.
    pub(crate) fn start(&self) -> u64
        ensures start { result ≡ self.now.start }
        ensures small { result ≤ most_issue }
    {
        self.start
    }

    /// The configuration of the arena.
    pub(crate) fn config(&self) -> &Config
        ensures config { result.now ≡ self.now.config }
        ensures stripes { (1 ≤ self.now.config.stripes) × (self.now.config.stripes ≤ most_stripes) }
        ensures hands { (1 ≤ self.now.hands) × (self.now.hands ≤ most_hands) }
        ensures start { self.now.start ≤ most_issue }
    {
        &self.config
    }

    /// The size classes.
    pub(crate) fn classes(&self) -> &ClassTable
        ensures classes { result.now ≡ self.now.table }
    {
        &self.classes
    }
}

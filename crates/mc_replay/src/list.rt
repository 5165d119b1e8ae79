//! A list of events, as it is played.
ghost use Rattle.std.specs.Prelude.{◌≡◌, ◌≤◌, None};
ghost use Rattle.mc_classes.specs.Limits.{most_hands};
ghost use Rattle.mc_classes.specs.Refusals.{config_refusal};

use mc_classes::Config;
use mc_core::Event;

/// A configuration that is not refused.
#[derive(Drop)]
pub struct Accepted {
    pub config: Config,
    ghost accepted: { config_refusal config ≡ None },
}

/// A list of events, with the configuration and the number of hands that play it.
#[derive(Drop)]
pub struct List<'a> {
    /// The first line of the list.
    pub name: &'a [u8],
    pub config: Config,
    pub hands: u64,
    pub events: Vec<Event>,
    ghost accepted: { config_refusal config ≡ None },
    ghost some: { 1 ≤ hands },
    ghost most: { hands ≤ most_hands },
}

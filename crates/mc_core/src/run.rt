//! Lists of events, played from the beginning.
ghost use Rattle.std.specs.Prelude.{◌≡◌, ◌≤◌, None};
ghost use Rattle.mc_classes.specs.Limits.{most_hands};
ghost use Rattle.mc_classes.specs.Refusals.{config_refusal};
ghost use Rattle.mc_core.specs.run.Run.{state_after_all, EndsRunAs, IsPlayed};

use crate::event::Event;
use crate::state::State;
use crate::stop::Stop;
use mc_classes::{ClassTable, Config, ConfigError};
use std::alloc::Global;

/// Plays the events, one after another, on an arena in which nothing was granted yet.
pub fn replay(alloc: Global, config: &Config, hands: u64, events: &[Event]) -> Result<State, Stop>
    requires config { config_refusal config.now ≡ None }
    requires hands { (1 ≤ hands) × (hands ≤ most_hands) }
    ensures { IsPlayed config.now hands events.now result }
{
    let table = match ClassTable::build(alloc, config) {
        Ok(table) => table,
        Err(ConfigError::NoMemory(refused)) => return Err(Stop::NoMemory(refused)),
        Err(_) => unreachable!(),
    };
    let state = State::new(alloc, table, config.stripes, hands, 0)?;
    play_all(state, events)
}

/// Plays the events, one after another.
fn play_all(mut state: State, events: &[Event]) -> Result<State, Stop>
    ensures { EndsRunAs (state_after_all state events.now) result }
{
    for (place, event) in events.iter().enumerate() {
        let is_done = state.play(event)?;
        if !is_done {
            return Err(Stop::NotAllowed(place as u64));
        }
    }
    Ok(state)
}

//! Numbers that look drawn, the same in each run.
ghost use Rattle.std.specs.Prelude.{◌≡◌, ◌*◌, ◌%◌, ◌^◌};
ghost use Rattle.rand_core.specs.Steps.{steps_u32, stream_of};
ghost use Rattle.rand_core.specs.Stream.{next_u64};
ghost use Rattle.rand_pcg.specs.Lcg.{advance, increment_of, started};
ghost use Rattle.rand_pcg.specs.Pcg.{multiplier_64, pcg32};

use rand_core::Rng;
use rand_pcg::Pcg32;

/// A number for this place of a thread's list. Each thread has a generator of its own, and a number takes two of its words.
pub fn draw(thread: u64, place: u64) -> u64
    ensures { result ≡ (next_u64 (stream_of (steps_u32 pcg32)
        (advance 64 multiplier_64 (place * 2 % 2 ^ 64)
        (started 64 multiplier_64 thread (increment_of 64 thread))))).0 }
{
    let mut random = Pcg32::new(thread, thread);
    random.advance(place.wrapping_mul(2));
    random.next_u64()
}

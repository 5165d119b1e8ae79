//! The text of counts in the format OpenMetrics, which Prometheus reads. It takes no memory.
ghost use Rattle.std.specs.Prelude.{◌≡◌, ◌<◌, OnErr, OnOk};
ghost use Rattle.std.specs.List.{flat_map};
ghost use Rattle.std.specs.Io.KnownBytes.{Appends};
ghost use Rattle.mc_io.specs.Device.{Extends};
ghost use Rattle.mc_stats.specs.Texts.{openmetrics_text, sample_line};

use crate::counts::Counts;
use crate::pieces::write_pieces;
use itoa::Buffer;
use mc_io::{Fault, Sink};

impl Counts {
    /// Writes a metric for gets, for sets, for deletes and for touches, each with a number for each result, and then the end of the text.
    /// Where a write fails, no other is made. (own)
    pub fn write_openmetrics<W: Sink>(&self, writer: &mut W) -> Result<(), Fault>
        ensures bytes { OnOk result (Appends (W.contents writer.old) (W.contents writer.new)
            (openmetrics_text self.now)) }
        ensures ok { OnOk result (W.failures writer.new ≡ W.failures writer.old) }
        ensures err { OnErr result (W.failures writer.old < W.failures writer.new) }
        ensures kept { OnErr result (Extends (W.contents writer.old) (W.contents writer.new)) }
    {
        let samples = [
            (
                "# TYPE mc_gets counter\nmc_gets_total{result=\"hit\"}",
                self.get_hits,
            ),
            ("mc_gets_total{result=\"miss\"}", self.get_misses),
            (
                "# TYPE mc_sets counter\nmc_sets_total{result=\"stored\"}",
                self.sets_stored,
            ),
            ("mc_sets_total{result=\"unmet\"}", self.sets_unmet),
            ("mc_sets_total{result=\"too_large\"}", self.store_too_large),
            ("mc_sets_total{result=\"no_memory\"}", self.store_no_memory),
            (
                "# TYPE mc_deletes counter\nmc_deletes_total{result=\"hit\"}",
                self.delete_hits,
            ),
            ("mc_deletes_total{result=\"miss\"}", self.delete_misses),
            (
                "# TYPE mc_touches counter\nmc_touches_total{result=\"hit\"}",
                self.touch_hits,
            ),
            ("mc_touches_total{result=\"miss\"}", self.touch_misses),
        ];
        write_samples(&samples, writer)?;
        writer.write_all(b"# EOF\n")
    }
}

// Writes the lines of some numbers, each behind its name.
fn write_samples<W: Sink>(samples: &[(&str, u64)], writer: &mut W) -> Result<(), Fault>
    ensures bytes { OnOk result (Appends (W.contents writer.old) (W.contents writer.new)
        (flat_map (λ sample. sample_line sample.0.now sample.1) samples.now)) }
    ensures ok { OnOk result (W.failures writer.new ≡ W.failures writer.old) }
    ensures err { OnErr result (W.failures writer.old < W.failures writer.new) }
    ensures kept { OnErr result (Extends (W.contents writer.old) (W.contents writer.new)) }
{
    for (name, count) in samples {
        let mut digits = Buffer::new();
        write_pieces(
            &[
                name.as_bytes(),
                b" ",
                digits.format(*count).as_bytes(),
                b"\n",
            ],
            writer,
        )?;
    }
    Ok(())
}

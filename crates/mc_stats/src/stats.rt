//! The text of counts as memcached's `stats` writes its numbers. It takes no memory.
ghost use Rattle.std.specs.Prelude.{◌≡◌, ◌<◌, OnErr, OnOk};
ghost use Rattle.std.specs.List.{flat_map};
ghost use Rattle.std.specs.Io.KnownBytes.{Appends};
ghost use Rattle.mc_io.specs.Device.{Extends};
ghost use Rattle.mc_watch.specs.Texts.{stat_line};
ghost use Rattle.mc_stats.specs.Texts.{stats_text};

use crate::counts::Counts;
use crate::pieces::write_pieces;
use itoa::Buffer;
use mc_io::{Fault, Sink};

impl Counts {
    /// Writes a line `STAT NAME NUMBER` for each number, and then `END`. Where a write fails, no other is made. (memcached's `stats`)
    pub fn write_stats<W: Sink>(&self, writer: &mut W) -> Result<(), Fault>
        ensures bytes { OnOk result (Appends (W.contents writer.old) (W.contents writer.new)
            (stats_text self.now)) }
        ensures ok { OnOk result (W.failures writer.new ≡ W.failures writer.old) }
        ensures err { OnErr result (W.failures writer.old < W.failures writer.new) }
        ensures kept { OnErr result (Extends (W.contents writer.old) (W.contents writer.new)) }
    {
        let counts = [
            ("get_hits", self.get_hits),
            ("get_misses", self.get_misses),
            ("sets_stored", self.sets_stored),
            ("sets_unmet", self.sets_unmet),
            ("store_too_large", self.store_too_large),
            ("store_no_memory", self.store_no_memory),
            ("delete_hits", self.delete_hits),
            ("delete_misses", self.delete_misses),
            ("touch_hits", self.touch_hits),
            ("touch_misses", self.touch_misses),
        ];
        write_lines(&counts, writer)?;
        writer.write_all(b"END\r\n")
    }
}

// Writes the lines of some numbers.
pub(crate) fn write_lines<W: Sink>(counts: &[(&str, u64)], writer: &mut W) -> Result<(), Fault>
    ensures bytes { OnOk result (Appends (W.contents writer.old) (W.contents writer.new)
        (flat_map (λ count. stat_line count.0.now count.1) counts.now)) }
    ensures ok { OnOk result (W.failures writer.new ≡ W.failures writer.old) }
    ensures err { OnErr result (W.failures writer.old < W.failures writer.new) }
    ensures kept { OnErr result (Extends (W.contents writer.old) (W.contents writer.new)) }
{
    for (name, count) in counts {
        let mut digits = Buffer::new();
        write_pieces(
            &[
                b"STAT ",
                name.as_bytes(),
                b" ",
                digits.format(*count).as_bytes(),
                b"\r\n",
            ],
            writer,
        )?;
    }
    Ok(())
}

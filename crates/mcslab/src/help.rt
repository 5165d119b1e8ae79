//! The end of what `--help` prints: the forms of a script's lines.

/// Which configurations are refused, the forms of a script's lines, and the statuses.
pub const FORMS: &str = "
A configuration is refused, in this order, where
  1  --page     isn't a multiple of 8 from 64 to 16384
  2  --first    is below 24 or above a page
  3  --factor   isn't NUM/DEN with NUM above DEN and at most 65535
  4  --max      isn't a multiple of 8 from --first to a page
  5  --limit    has room for no page, or for more than 64
  6  --stripes  is below 1 or above 64
  7             a page of the first class would have more than 256 chunks
  8  --bulk     is below 1 or above 256

A line of a script has one of these forms. An empty line and one that begins with # are skipped.
  WORKER set KEY N BASE   stores N words, up to 4096, that count up from BASE; a worker is 1 to 63
  WORKER get KEY          reads the item of a key
  WORKER del KEY          takes it away
  WORKER hold KEY         holds it, so that its chunk stays where it is
  WORKER drop KEY         lets go of it
  WORKER touch KEY        makes it the youngest of its class
  reassign SRC DST        a page is to go from class SRC, or -1 for any, to class DST, or 0 for the pool
  automove MODE           the automover is off at 0, acts on windows at 1, on evictions at 2
  window                  a window of the automover ends
  turn N                  the mover takes N turns, up to 1000000
  stats, stats slabs      the statistics

It ends with 0, with 1 where the options are refused, 2 where the script is, 3 where a stream failed, 4 where memory ran out,
and 5 where the script asks for more than 1000000 turns in all.
";

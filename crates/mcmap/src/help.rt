//! How to call the program.

/// The text of `--help`.
pub const HELP: &str = "mcmap: shows a slab memory at each line '# map' of a script, and at its end

usage: mcmap [--json | --svg | --html | --classes | --check] [OPTIONS of mcslab] < script

One of these at a time:
  --json      the same maps as JSON, one in a line; at the end its line is 0
  --svg       pages over time as an SVG, a column for each entry of the ledger
  --html      a page for a browser: maps under a slider, at each mark and behind each command that changed an owner
  --classes   the class table with each class's worst waste, before anything runs; no script is read
  --check     what is wrong with the options, or which word of a line is wrong, and what would be right; nothing runs
  --help      this text; that of mcslab tells its options

A map has the owner of each page, a line for each class that has pages, the ledger, and where a move hangs:
the page, the mover's position, and for each chunk that holds it up the key and the workers that hold it.

Which configurations are refused, and the forms of a script's lines: mcslab --help.
It ends with 0, with 1 where the options are refused, 2 where the script is, 3 where a stream failed, 4 where memory ran out,
5 where the script asks for more than 1000000 turns in all, and 6 where its books aren't as the memory's numbers say.
";

//! Worked examples of what is written, computed by the prover: the contract of a function with nothing to do.
ghost use Rattle.mc_picture.specs.Worked.{HeadingShown, LineShown, MemoryShown, NoLinesShown, PagesShown, RowsShown, RunsShown, SumShown};

/// The texts before a page map, of a page map, of the line of a class and of no line; and of the class table its heading and
/// lines. And the boxes of a page in a chart.
pub fn worked_texts()
    ensures heading { HeadingShown }
    ensures pages { PagesShown }
    ensures line { LineShown }
    ensures sum { SumShown }
    ensures no_lines { NoLinesShown }
    ensures memory { MemoryShown }
    ensures rows { RowsShown }
    ensures runs { RunsShown }
{}

//! The texts of the statistics, added to a text in memory.
ghost use Rattle.std.specs.Prelude.{◌≡◌, ◌++◌, ◌<◌, OnOk};
ghost use Rattle.std.specs.Io.{StartsWith};
ghost use Rattle.mc_workers.specs.MoverReplies.{class_statistics_text, statistics_text, totals_text};
ghost use Rattle.mc_workers.specs.Surveyed.{ArePrintable};

use mc_classes::{ClassTable, Failures, Fault};
use mc_memory::Refused;
use mc_mover::Survey;
use mc_replies::TextSink;
use mc_watch::{stats_general, stats_slabs};
use std::marker::Brand;
use std::sync::ledger::{Blank, Ledger};

// Adds the statistics of the classes, and then those of the whole.
pub(crate) fn push_statistics(
    text: &mut Vec<u8>,
    table: &ClassTable,
    survey: &Survey,
) -> Result<(), Refused>
    requires tellable { ArePrintable table.now survey.now }
    ensures text { OnOk result (text.new.items ≡ text.old.items
        ++ statistics_text table.now survey.now) }
    ensures kept { StartsWith text.new.items text.old.items }
{
    push_classes::<Brand>(Blank::new(1), text, table, survey)?;
    push_totals::<Brand>(Blank::new(1), text, survey)
}

// Adds the statistics of all classes together.
pub(crate) fn push_totals<L: Ledger>(
    refusals: Blank,
    text: &mut Vec<u8>,
    survey: &Survey,
) -> Result<(), Refused>
    requires name { refusals.name ≡ L.name }
    requires parts { refusals.parts ≡ L.parts }
    requires some { 0 < refusals.parts }
    ensures text { OnOk result (text.new.items ≡ text.old.items ++ totals_text survey.now) }
    ensures kept { StartsWith text.new.items text.old.items }
{
    let totals = survey.totals;
    let mut sink = TextSink::take(text, Failures::<L>::new(refusals));
    match stats_general(
        totals.pool,
        survey.running,
        totals.moved,
        totals.rescues,
        totals.evictions_nomem,
        totals.busy,
        &mut sink,
    ) {
        Ok(()) => Ok(sink.put_back(text)),
        Err(Fault) => Err(sink.into_refusal(text)),
    }
}

// Adds the statistics of the classes.
pub(crate) fn push_classes<L: Ledger>(
    refusals: Blank,
    text: &mut Vec<u8>,
    table: &ClassTable,
    survey: &Survey,
) -> Result<(), Refused>
    requires name { refusals.name ≡ L.name }
    requires parts { refusals.parts ≡ L.parts }
    requires some { 0 < refusals.parts }
    requires tellable { ArePrintable table.now survey.now }
    ensures text { OnOk result (text.new.items ≡ text.old.items
        ++ class_statistics_text table.now survey.now) }
    ensures kept { StartsWith text.new.items text.old.items }
{
    let pages = survey.pages(*text.allocator())?;
    let free = survey.free(*text.allocator())?;
    let granted = survey.totals.granted * table.page();
    let mut sink = TextSink::take(text, Failures::<L>::new(refusals));
    match stats_slabs(table, &pages, &free, granted, &mut sink) {
        Ok(()) => Ok(sink.put_back(text)),
        Err(Fault) => Err(sink.into_refusal(text)),
    }
}

//! The views that are shown: maps, pages over time, and the class table.
ghost use Rattle.std.specs.Prelude.{◌≡◌, ◌≤◌, ◌++◌, All, OnOk, length, string_bytes};
ghost use Rattle.mc_picture.specs.Charts.{IsChart};
ghost use Rattle.mc_picture.specs.Maps.{map_text};
ghost use Rattle.mcmap.specs.Played.{AreMapsOf, IsChartOf, IsClassesOf, IsMapIn, IsMapShown, LeadTo, ShowsMaps, done_at, place_text};
ghost use Rattle.mc_script.specs.Command.{IsValid};

use crate::fault::Fault;
use crate::json::write_json;
use mc_map::{ClassTable, Command, Map, Mark, Player, Script};
use mc_options::Run;
use mc_picture::{class_rows, write_chart, write_classes, write_map};
use std::alloc::Global;

/// Shows the class table, before anything runs.
pub fn show_classes(alloc: Global, run: &Run, text: &mut String) -> Result<(), Fault>
    ensures classes { OnOk result (IsClassesOf run.now.config (string_bytes text.old)
        (string_bytes text.new)) }
{
    let table = ClassTable::build(alloc, &run.config)?;
    let rows = class_rows(alloc, &table)?;
    write_classes(&table, &rows, text)?;
    Ok(())
}

/// How maps are shown.
#[derive(Clone, Copy)]
pub enum Form {
    Text,
    Json,
}

/// Shows a map at each mark of the script, and at its end.
pub fn show_maps(
    alloc: Global,
    form: Form,
    run: &Run,
    script: &Script,
    text: &mut String,
) -> Result<(), Fault>
    requires mode { run.now.automove ≤ 2 }
    requires valid { All IsValid script.now.commands.items }
    ensures maps { OnOk result (AreMapsOf form run.now script.now.commands.items
        script.now.marks.items (string_bytes text.old) (string_bytes text.new)) }
{
    show_all(alloc, form, run, &script.commands, &script.marks, text)
}

/// Does these commands from a fresh memory, and shows a map at each of these marks and at the end.
pub fn show_all(
    alloc: Global,
    form: Form,
    run: &Run,
    commands: &[Command],
    marks: &[Mark],
    text: &mut String,
) -> Result<(), Fault>
    requires mode { run.now.automove ≤ 2 }
    requires valid { All IsValid commands.now }
    ensures maps { OnOk result (AreMapsOf form run.now commands.now marks.now
        (string_bytes text.old) (string_bytes text.new)) }
{
    let mut player = Player::new(alloc, run)?;
    let done = play_maps(alloc, form, &mut player, run, commands, marks, text);
    drop(player);
    done
}

/// Does all commands, and shows a map at each mark and at the end.
fn play_maps(
    alloc: Global,
    form: Form,
    player: &mut Player,
    run: &Run,
    commands: &[Command],
    marks: &[Mark],
    text: &mut String,
) -> Result<(), Fault>
    requires mode { run.now.automove ≤ 2 }
    requires valid { All IsValid commands.now }
    ensures maps { OnOk result (ShowsMaps form commands.now 0 marks.now player.old.keeper
        player.old.books (string_bytes text.old) (string_bytes text.new)) }
{
    let mut done = 0;
    for mark in marks {
        let place = place_of(*mark, commands.len(), done);
        play_all(player, &commands[done..place])?;
        done = place;
        show_map(alloc, form, player, run, &commands[..done], mark.line, text)?;
    }
    play_all(player, &commands[done..])?;
    show_map(alloc, form, player, run, commands, 0, text)
}

/// How many of n commands are done at a mark: those above it, or as many as were done already.
fn place_of(mark: Mark, count: usize, done: usize) -> usize
    ensures { result ≡ done_at count done mark }
{
    (mark.done as usize).min(count).max(done)
}

/// Shows a map in this form. `commands` are those that were done; `line` is that of the mark, or 0 at the end.
fn show_map(
    alloc: Global,
    form: Form,
    player: &Player,
    run: &Run,
    commands: &[Command],
    line: u64,
    text: &mut String,
) -> Result<(), Fault>
    requires mode { run.now.automove ≤ 2 }
    requires valid { All IsValid commands.now }
    ensures shown { OnOk result (IsMapShown form line player.now.keeper player.now.books
        (string_bytes text.old) (string_bytes text.new)) }
{
    let map = player.map(run, commands)?;
    let written = write_form(alloc, form, &map, line, text);
    drop(map);
    written
}

/// Adds a map in this form.
fn write_form(
    alloc: Global,
    form: Form,
    map: &Map,
    line: u64,
    text: &mut String,
) -> Result<(), Fault>
    ensures map { OnOk result (IsMapIn form line map.now (string_bytes text.old)
        (string_bytes text.new)) }
{
    match form {
        Form::Text => write_text(alloc, map, line, text),
        Form::Json => write_json(alloc, map, line, text),
    }
}

/// Adds a map as text, under a heading with its place in the script.
#[tactic(auto, unfolding(crate::specs::Played::place_text))]
fn write_text(alloc: Global, map: &Map, line: u64, text: &mut String) -> Result<(), Fault>
    ensures map { OnOk result (string_bytes text.new ≡ string_bytes text.old
        ++ map_text (place_text line) map.now) }
{
    if line == 0 {
        write_map(map, "at the end", text)?;
        return Ok(());
    }
    let heading = format!(in alloc; "at line {line}")?;
    write_map(map, heading.as_str(), text)?;
    Ok(())
}

/// Does these commands.
fn play_all(player: &mut Player, commands: &[Command]) -> Result<(), Fault>
    requires { All IsValid commands.now }
    ensures played { OnOk result (LeadTo commands.now player.old.keeper player.old.books
        player.new.keeper player.new.books) }
{
    for command in commands {
        player.play(*command)?;
    }
    Ok(())
}

/// Shows pages over time.
pub fn show_chart(alloc: Global, run: &Run, script: &Script, text: &mut String) -> Result<(), Fault>
    requires mode { run.now.automove ≤ 2 }
    requires valid { All IsValid script.now.commands.items }
    ensures chart { OnOk result (IsChartOf run.now script.now.commands.items (string_bytes text.old)
        (string_bytes text.new)) }
{
    let mut player = Player::new(alloc, run)?;
    let done = play_chart(alloc, &mut player, script, text);
    drop(player);
    done
}

/// Does all commands, and shows what became of the pages.
fn play_chart(
    alloc: Global,
    player: &mut Player,
    script: &Script,
    text: &mut String,
) -> Result<(), Fault>
    requires { All IsValid script.now.commands.items }
    ensures played { OnOk result (LeadTo script.now.commands.items player.old.keeper
        player.old.books player.new.keeper player.new.books) }
    ensures chart { OnOk result (IsChart (length player.new.books.owners) player.new.books.ledger
        (string_bytes text.old) (string_bytes text.new)) }
{
    play_all(player, &script.commands)?;
    let table = player.keeper().table();
    let rows = class_rows(alloc, table)?;
    write_chart(
        alloc,
        player.owners().len(),
        player.ledger(),
        &rows,
        table.page(),
        text,
    )?;
    Ok(())
}

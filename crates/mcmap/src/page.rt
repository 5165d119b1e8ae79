//! A page of HTML that needs nothing from outside: maps under a slider, with the pages over time.
ghost use Rattle.std.specs.Prelude.{◌≤◌, All, OnOk, string_bytes};
ghost use Rattle.mc_script.specs.Command.{IsValid};
ghost use Rattle.mc_picture.specs.Drawn.{TextExtends};
ghost use Rattle.mcmap.specs.Pages.{IsPageOf};

use crate::fault::Fault;
use crate::page_script::{ACTIONS, DRAWING, READING, TABLES};
use crate::show::{Form, show_all};
use mc_map::{Mark, Player, Script};
use mc_memory::push;
use mc_options::Run;
use std::alloc::{AllocError, Global};

/// The most moments of a page.
const MOST_MOMENTS: usize = 500;

/// Shows a page of HTML with the maps of all moments of the script.
pub fn show_page(alloc: Global, run: &Run, script: &Script, text: &mut String) -> Result<(), Fault>
    requires mode { run.now.automove ≤ 2 }
    requires valid { All IsValid script.now.commands.items }
    ensures page { OnOk result (IsPageOf run.now script.now.commands.items (string_bytes text.old)
        (string_bytes text.new)) }
{
    let moments = moments_of(alloc, run, script)?;
    write_head(text)?;
    show_all(alloc, Form::Json, run, &script.commands, &moments, text)?;
    write_tail(text)?;
    Ok(())
}

/// The moments of a script: its marks, and behind each command that changed the owner of a page.
fn moments_of(alloc: Global, run: &Run, script: &Script) -> Result<Vec<Mark>, Fault>
    requires mode { run.now.automove ≤ 2 }
    requires valid { All IsValid script.now.commands.items }
{
    let mut player = Player::new(alloc, run)?;
    let moments = play_moments(alloc, &mut player, script);
    drop(player);
    moments
}

/// Does all commands, and notes the moments.
fn play_moments(alloc: Global, player: &mut Player, script: &Script) -> Result<Vec<Mark>, Fault>
    requires { All IsValid script.now.commands.items }
{
    let mut moments = Vec::new(alloc);
    let first = line_at(&script.marks, 0);
    if first.is_some() {
        note_moment(&mut moments, first, 0)?;
    }
    let mut done: u64 = 0;
    for command in &script.commands {
        let before = player.ledger().len();
        player.play(*command)?;
        done = done.saturating_add(1);
        let line = line_at(&script.marks, done);
        if line.is_some() || player.ledger().len() > before {
            note_moment(&mut moments, line, done)?;
        }
    }
    Ok(moments)
}

/// The line of the mark behind so many commands, if there is one.
fn line_at(marks: &[Mark], done: u64) -> Option<u64> {
    let mark = marks.iter().find(|mark| mark.done == done)?;
    Some(mark.line)
}

/// Notes a moment, if there is room for one more. Its line is that of its mark, or else 0.
fn note_moment(moments: &mut Vec<Mark>, line: Option<u64>, done: u64) -> Result<(), Fault> {
    if moments.len() >= MOST_MOMENTS {
        return Err(Fault::Moments);
    }
    let line = line.unwrap_or(0);
    push(moments, Mark { line, done })?;
    Ok(())
}

/// What is before the maps: the style, and the parts of the page.
const HEAD: &str = "<!DOCTYPE html>
<html lang='en'>
<head>
<meta charset='utf-8'>
<title>mcmap: who owns each page</title>
<style>
body { font-family: Helvetica, Arial, sans-serif; font-size: 14px; color: #222; margin: 16px }
h1 { font-size: 18px } h2 { font-size: 15px; margin: 16px 0 4px }
input { width: 100%; max-width: 900px } .wide { overflow-x: auto }
table { border-collapse: collapse } th, td { padding: 2px 8px; text-align: right; border-bottom: 1px solid #ddd }
th { font-weight: normal; color: #555 } tr.sum td { font-weight: bold; border-bottom: 0 }
svg text { font-size: 11px; fill: #222; paint-order: stroke; stroke: #fff; stroke-width: 2px; stroke-opacity: 0.7 } p { margin: 4px 0 }
</style>
</head>
<body>
<h1>Who owns each page</h1>
<p><label for='at'>Moment: <output id='when' for='at'></output></label></p>
<p><input type='range' id='at' min='0' value='0' step='1'></p>
<h2>Pages over time</h2>
<p id='count'></p>
<div class='wide' id='chart'></div>
<h2>Classes</h2>
<div class='wide' id='classes'></div>
<h2>Move</h2>
<div id='move'></div>
<script type='application/json' id='maps'>
";

/// Adds what is before the maps.
fn write_head(text: &mut String) -> Result<(), AllocError>
    ensures { OnOk result (TextExtends (string_bytes text.old) (string_bytes text.new)) }
{
    write_piece(HEAD, text)
}

/// Adds what is behind the maps: the script of the page.
fn write_tail(text: &mut String) -> Result<(), AllocError>
    ensures { OnOk result (TextExtends (string_bytes text.old) (string_bytes text.new)) }
{
    write_piece(READING, text)?;
    write_piece(DRAWING, text)?;
    write_piece(TABLES, text)?;
    write_piece(ACTIONS, text)
}

/// Adds a piece of the script.
#[tactic(auto, using(crate::proofs::Paged::ends_piece))]
fn write_piece(piece: &str, text: &mut String) -> Result<(), AllocError>
    ensures { OnOk result (TextExtends (string_bytes text.old) (string_bytes text.new)) }
{
    text.push_str(piece)
}

//! What is recorded behind the end of a window: nothing.
ghost use Rattle.std.specs.Prelude.{◌≡◌, [], All};
ghost use Rattle.mc_script.specs.Command.{IsValid};
ghost use Rattle.mc_words.specs.hand.Arenas.{view};
ghost use Rattle.mc_words.specs.hand.Ready.{IsReadyHandOf};

use mc_driver::Free;
use mc_script::Command;
use mc_words::{Arena, Final, Hand};
use mc_workers::{Ended, Shared, first_hand, move_lines, serve_lines};
use std::alloc::Global;
use std::sync::Wait;
use std::test::Fail;
use testlib_values::FOUR_CLASSES;

/// Four sets, and then a page that moves.
const SCRIPT: &[u8] =
    b"1 set 1 3 7\n1 set 2 22 50\n1 set 3 22 50\n1 set 4 22 50\nreassign 4 1\nturn 9\n";

/// The replies to the mover in `SCRIPT`.
const TEXT: &[u8] = b"OK\r\nTURN FINISHED 2 1 1 0 0\r\n";

/// The script `SCRIPT`, and a window at its end.
const WITH_WINDOW: &[u8] =
    b"1 set 1 3 7\n1 set 2 22 50\n1 set 3 22 50\n1 set 4 22 50\nreassign 4 1\nturn 9\nwindow\n";

/// The replies to the mover in `WITH_WINDOW`.
const WINDOW_TEXT: &[u8] = b"OK\r\nTURN FINISHED 2 1 1 0 0\r\nWINDOW none\r\n";

/// Does the lines of worker 1 by the second hand, and then those of the mover by the first. Gives what the mover was answered.
fn serve_both<R: Wait>(
    rt: &R,
    alloc: Global,
    arena: &Arena,
    mover: &mut Hand,
    worker: &mut Hand,
    commands: &[Command],
) -> Result<Vec<u8>, Ended>
    requires mover { IsReadyHandOf arena.now mover.old }
    requires worker { IsReadyHandOf arena.now worker.old }
    requires none { (view worker.old).row.holdings ≡ [] }
    requires valid { All IsValid commands.now }
    ensures mover { IsReadyHandOf arena.now mover.new }
{
    let shared = Shared {
        rt,
        alloc,
        arena,
        gate: &Free,
        commands,
    };
    let mut replies = Vec::new(alloc);
    serve_lines(&shared, 1, worker, &mut replies)?;
    let mut text = Vec::new(alloc);
    move_lines(&shared, mover, &mut text)?;
    Ok(text)
}

/// The arena that a script leaves, and what the mover was answered.
fn serve_and_close<R: Wait>(
    rt: &R,
    alloc: Global,
    script: &[u8],
) -> Result<(Final, Result<Vec<u8>, Ended>), Fail> {
    let Ok(commands) = mc_script::read(alloc, script) else {
        return Err(Fail::new("each line is a command"));
    };
    let (arena, mut hands) = Arena::new(alloc, &FOUR_CLASSES, 2)?;
    let Some(mut mover) = first_hand(&arena, 0, &mut hands) else {
        return Err(Fail::new("there is a hand"));
    };
    let Some(mut worker) = first_hand(&arena, 1, &mut hands) else {
        return Err(Fail::new("there is another"));
    };
    let text = serve_both(rt, alloc, &arena, &mut mover, &mut worker, &commands);
    Ok((arena.close(mover), text))
}

/// How many calls are recorded by all stripes, and how many entries by the ledger.
fn counts_of(left: &Final) -> Option<(usize, usize)> {
    let mut calls = 0usize;
    for number in 0..left.config().stripes {
        calls = calls.saturating_add(left.stripe(number)?.history().len());
    }
    Some((calls, left.slabs()?.ledger().len()))
}

/// Behind the window no call and no entry is recorded; without it they are: four sets, a rescue and an eviction; three pages that were
/// granted, and the beginning and the end of the move.
#[test]
fn nothing_is_recorded_behind_a_window(rt: HostRuntime) -> Result<(), Fail> {
    let (left, text) = serve_and_close(&rt, rt.alloc(), SCRIPT)?;
    assert!(rt;
        counts_of(&left) == Some((6, 5)),
        "what is recorded before it"
    );
    assert!(rt;
        text.is_ok_and(|text| text.as_slice() == TEXT),
        "what the mover was answered"
    );
    let (left, text) = serve_and_close(&rt, rt.alloc(), WITH_WINDOW)?;
    assert!(rt;
        counts_of(&left) == Some((0, 0)),
        "what is recorded behind it"
    );
    assert!(rt;
        text.is_ok_and(|text| text.as_slice() == WINDOW_TEXT),
        "what the mover was answered then"
    );
    Ok(())
}

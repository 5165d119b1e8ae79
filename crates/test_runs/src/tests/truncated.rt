//! A script of two workers that is cut off anywhere.
use super::meeting::{Meeting, SCRIPT};
use super::play::{Played, play};
use mc_driver::{Free, RunFault};
use std::test::Fail;

/// The statistics where nothing was stored, and where one item is there.
const NONE: &[u8] = b"STAT active_slabs 0\r\nSTAT total_malloced 0\r\nEND\r\n\
STAT slab_global_page_pool 0\r\nSTAT slab_reassign_running 0\r\nSTAT slabs_moved 0\r\n\
STAT slab_reassign_rescues 0\r\nSTAT slab_reassign_evictions_nomem 0\r\nSTAT slab_reassign_busy_items 0\r\nEND\r\n";

const ONE: &[u8] = b"STAT 1:chunk_size 48\r\nSTAT 1:chunks_per_page 21\r\nSTAT 1:total_pages 1\r\n\
STAT 1:total_chunks 21\r\nSTAT 1:used_chunks 1\r\nSTAT 1:free_chunks 20\r\n\
STAT active_slabs 1\r\nSTAT total_malloced 1024\r\nEND\r\n\
STAT slab_global_page_pool 0\r\nSTAT slab_reassign_running 0\r\nSTAT slabs_moved 0\r\n\
STAT slab_reassign_rescues 0\r\nSTAT slab_reassign_evictions_nomem 0\r\nSTAT slab_reassign_busy_items 0\r\nEND\r\n";

/// The replies to the first n lines.
const REPLIES: [&[u8]; 5] = [
    b"",
    b"STORED 1\r\n",
    b"STORED 1\r\nHELD 1\r\n",
    b"STORED 1\r\nHELD 1\r\nDROPPED 1 3 7 8 9\r\n",
    b"STORED 1\r\nHELD 1\r\nDROPPED 1 3 7 8 9\r\nSTORED 1\r\n",
];

/// How many lines are whole in n bytes: none, or up to the end of one, with the LF behind it or without. The last is whole
/// without its last digit, too. None where the last line is no command.
fn whole_lines(length: usize) -> Option<usize> {
    match length {
        0 => Some(0),
        11 | 12 => Some(1),
        20 | 21 => Some(2),
        29 | 30 => Some(3),
        41..=43 => Some(4),
        _ => None,
    }
}

/// The number of the line in which the first n bytes end.
fn last_line(script: &[u8]) -> u64 {
    let mut line = 1u64;
    for byte in script.iter() {
        if *byte == b'\n' {
            line = line.wrapping_add(1);
        }
    }
    line
}

/// The run ended well, and wrote the replies to n lines, and the statistics behind them.
fn has_replies(played: &Played, lines: usize) -> bool {
    let Some(replies) = REPLIES.get(lines) else {
        return false;
    };
    let statistics = if lines == 0 { NONE } else { ONE };
    let text = played.text.as_slice();
    let first = text.get(..replies.len()) == Some(*replies);
    first && text.get(replies.len()..) == Some(statistics) && played.end.is_ok()
}

#[test]
fn a_script_that_is_cut_off_is_refused_or_runs_as_far(rt: HostRuntime) -> Result<(), Fail> {
    for length in 0..=SCRIPT.len() {
        let Some(script) = SCRIPT.get(..length) else {
            return Err(Fail::new("the script is so long"));
        };
        let right = match whole_lines(length) {
            // Both workers are there, and meet.
            Some(4) => {
                let gate = Meeting::new(1_000_000_000);
                has_replies(&play(&rt, rt.alloc(), &gate, script), 4)
            }
            // The first worker is alone.
            Some(lines) => has_replies(&play(&rt, rt.alloc(), &Free, script), lines),
            None => {
                let fault = Err(RunFault::Script(last_line(script)));
                play(&rt, rt.alloc(), &Free, script).is(&fault, b"")
            }
        };
        assert!(rt; right, "the first {length} bytes");
    }
    Ok(())
}

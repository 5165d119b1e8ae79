//! Runs in which pages move by themselves.
use super::{FROM_MODE_0, Row, plays, plays_rows};
use mc_driver::Run;
use std::alloc::{AllocError, Global};
use std::test::Fail;
use testlib_values::FOUR_CLASSES;

/// A run whose script puts the automover into mode 2 first.
const IN_MODE_2: Row<'static> = (
    "in mode 2 a set without an eviction asks for none, and a page that can't be had is no fault of the set",
    "automove 2\n1 set 1 61 0\n1 set 2 61 0\n1 set 3 61 0\n1 set 4 61 0\n1 set 5 61 0\n1 set 6 61 0\n1 set 7 61 0\n1 set 8 61 0\nturn 1\n1 set 9 61 0\nturn 1\n1 get 1\n",
    "OK\r\nSTORED 1\r\nSTORED 2\r\nSTORED 3\r\nSTORED 4\r\nSTORED 5\r\nSTORED 6\r\nSTORED 7\r\nSTORED 8\r\nTURN IDLE 0 0 0 0 0\r\nSTORED 9\r\nTURN IDLE 0 0 0 0 0\r\nNOT_FOUND 1\r\n",
    Ok(()),
);

const ROWS: [Row<'static>; 5] = [
    (
        "in mode 2 an eviction asks for a page, and where it comes from another class there is room again",
        "1 set 1 61 0\n1 set 2 61 0\n1 set 3 61 0\n1 set 4 61 0\n1 set 11 20 0\n1 set 12 20 0\n1 set 13 20 0\n1 set 14 20 0\n1 set 15 20 0\n1 set 16 20 0\nautomove 2\n1 set 5 61 0\nstats\nturn 1\n1 set 6 61 0\n1 touch 2\n",
        "STORED 1\r\nSTORED 2\r\nSTORED 3\r\nSTORED 4\r\nSTORED 11\r\nSTORED 12\r\nSTORED 13\r\nSTORED 14\r\nSTORED 15\r\nSTORED 16\r\nOK\r\nSTORED 5\r\nSTAT slab_global_page_pool 0\r\nSTAT slab_reassign_running 1\r\nSTAT slabs_moved 0\r\nSTAT slab_reassign_rescues 0\r\nSTAT slab_reassign_evictions_nomem 0\r\nSTAT slab_reassign_busy_items 0\r\nEND\r\nTURN FINISHED 5 4 1 0 0\r\nSTORED 6\r\nTOUCHED 2\r\n",
        Ok(()),
    ),
    (
        "in modes 0 and 1 an eviction asks for none",
        "1 set 1 61 0\n1 set 2 61 0\n1 set 3 61 0\n1 set 4 61 0\n1 set 11 20 0\n1 set 12 20 0\n1 set 13 20 0\n1 set 14 20 0\n1 set 15 20 0\n1 set 16 20 0\n1 set 5 61 0\nturn 1\nautomove 1\n1 set 6 61 0\nturn 1\n",
        "STORED 1\r\nSTORED 2\r\nSTORED 3\r\nSTORED 4\r\nSTORED 11\r\nSTORED 12\r\nSTORED 13\r\nSTORED 14\r\nSTORED 15\r\nSTORED 16\r\nSTORED 5\r\nTURN IDLE 0 0 0 0 0\r\nOK\r\nSTORED 6\r\nTURN IDLE 0 0 0 0 0\r\n",
        Ok(()),
    ),
    IN_MODE_2,
    (
        "three windows that one class leads, while another is quiet, move a page between them",
        "1 set 11 20 0\n1 set 12 20 0\n1 set 13 20 0\n1 set 14 20 0\n1 set 15 20 0\n1 set 16 20 0\n1 set 17 20 0\n1 set 18 20 0\n1 set 19 20 0\n1 set 20 20 0\n1 set 21 20 0\n1 set 22 20 0\n1 set 23 20 0\n1 set 24 20 0\n1 set 25 20 0\n1 set 1 61 0\n1 set 2 61 0\nautomove 1\n1 set 3 61 0\nwindow\n1 set 4 61 0\nwindow\n1 set 5 61 0\nwindow\nturn 1\n1 set 6 61 0\n1 touch 4\nwindow\n",
        "STORED 11\r\nSTORED 12\r\nSTORED 13\r\nSTORED 14\r\nSTORED 15\r\nSTORED 16\r\nSTORED 17\r\nSTORED 18\r\nSTORED 19\r\nSTORED 20\r\nSTORED 21\r\nSTORED 22\r\nSTORED 23\r\nSTORED 24\r\nSTORED 25\r\nSTORED 1\r\nSTORED 2\r\nOK\r\nSTORED 3\r\nWINDOW none\r\nSTORED 4\r\nWINDOW none\r\nSTORED 5\r\nWINDOW 3 4 OK\r\nTURN FINISHED 5 0 5 0 0\r\nSTORED 6\r\nTOUCHED 4\r\nWINDOW none\r\n",
        Ok(()),
    ),
    (
        "a window puts back the dead of all classes",
        "1 set 1 61 0\n1 set 2 3 0\n1 del 1\n1 del 2\nwindow\nstats\n",
        "STORED 1\r\nSTORED 2\r\nDELETED 1\r\nDELETED 2\r\nWINDOW none\r\nSTAT slab_global_page_pool 0\r\nSTAT slab_reassign_running 0\r\nSTAT slabs_moved 0\r\nSTAT slab_reassign_rescues 0\r\nSTAT slab_reassign_evictions_nomem 0\r\nSTAT slab_reassign_busy_items 0\r\nEND\r\n",
        Ok(()),
    ),
];

/// Adds a line, and its reply.
fn push_pair(
    alloc: Global,
    script: &mut Vec<u8>,
    replies: &mut Vec<u8>,
    line: (&str, u64, &str),
    reply: &str,
) -> Result<(), AllocError> {
    let (before, key, after) = line;
    let line = format!(in alloc; "{before}{key}{after}")?;
    let reply = format!(in alloc; "{reply}{key}\r\n")?;
    script.extend_from_slice(line.as_bytes())?;
    replies.extend_from_slice(reply.as_bytes())
}

/// Three pages of small items of which n are deleted, and the replies.
fn three_pages(alloc: Global, deleted: u64) -> Result<(Vec<u8>, Vec<u8>), AllocError> {
    let mut script = Vec::new(alloc);
    let mut replies = Vec::new(alloc);
    for key in 1..64 {
        push_pair(
            alloc,
            &mut script,
            &mut replies,
            ("1 set ", key, " 3 0\n"),
            "STORED ",
        )?;
    }
    for key in 1..=deleted {
        push_pair(
            alloc,
            &mut script,
            &mut replies,
            ("1 del ", key, "\n"),
            "DELETED ",
        )?;
    }
    Ok((script, replies))
}

/// How many items of three pages are deleted, the lines behind that, and their replies.
const TO_SPARE: [(u64, &str, &str); 3] = [
    (
        53,
        "window\nturn 1\nstats\n",
        "WINDOW 1 0 OK\r\nTURN FINISHED 21 0 0 0 0\r\nSTAT slab_global_page_pool 1\r\nSTAT slab_reassign_running 0\r\nSTAT slabs_moved 1\r\nSTAT slab_reassign_rescues 0\r\nSTAT slab_reassign_evictions_nomem 0\r\nSTAT slab_reassign_busy_items 0\r\nEND\r\n",
    ),
    (
        52,
        "window\nturn 1\n",
        "WINDOW none\r\nTURN IDLE 0 0 0 0 0\r\n",
    ),
    (
        53,
        "automove 0\nwindow\nautomove 2\nwindow\nautomove 1\nwindow\nwindow\n",
        "OK\r\nWINDOW none\r\nOK\r\nWINDOW none\r\nOK\r\nWINDOW 1 0 OK\r\nWINDOW 1 0 BUSY\r\n",
    ),
];

/// More free chunks than two and a half pages have: a page goes to the pool. One chunk fewer, and none does.
#[test]
fn a_page_to_spare_goes_to_the_pool(rt: HostRuntime) -> Result<(), Fail> {
    let run = Run {
        config: FOUR_CLASSES,
        automove: 1,
    };
    for (deleted, more, more_replies) in &TO_SPARE {
        let (mut script, mut replies) = three_pages(rt.alloc(), *deleted)?;
        script.extend_from_slice(more.as_bytes())?;
        replies.extend_from_slice(more_replies.as_bytes())?;
        plays(&rt, rt.alloc(), run, &script, &replies, &Ok(()), more)?;
    }
    Ok(())
}

/// The options set the mode that the line `automove` sets.
#[test]
fn a_run_is_started_in_a_mode(rt: HostRuntime) -> Result<(), Fail> {
    let (name, script, replies, _) = &IN_MODE_2;
    let run = Run {
        config: FOUR_CLASSES,
        automove: 2,
    };
    let script = script.as_bytes();
    let replies = replies.as_bytes();
    plays(
        &rt,
        rt.alloc(),
        run,
        &script["automove 2\n".len()..],
        &replies["OK\r\n".len()..],
        &Ok(()),
        name,
    )?;
    plays(&rt, rt.alloc(), FROM_MODE_0, script, replies, &Ok(()), name)
}

#[test]
fn rows_are_played(rt: HostRuntime) -> Result<(), Fail> {
    plays_rows(&rt, rt.alloc(), &ROWS)
}

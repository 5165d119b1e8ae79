//! Runs whose pages move.
use super::{Row, plays, plays_rows};
use mc_classes::Config;
use mc_driver::{Run, RunFault};
use std::test::Fail;
use testlib_values::FOUR_CLASSES;

/// A move that is held up.
pub(super) const HELD_UP: Row<'static> = (
    "a held item holds up a move",
    "1 set 1 22 100\n1 set 2 22 100\n1 set 3 22 100\n1 set 4 22 100\n1 set 5 22 100\n1 set 6 22 100\n1 set 7 22 100\n1 set 8 22 100\n1 hold 1\nreassign 4 1\nturn 1\nstats\nreassign 4 2\n1 drop 1\nturn 1\nturn 1\n",
    "STORED 1\r\nSTORED 2\r\nSTORED 3\r\nSTORED 4\r\nSTORED 5\r\nSTORED 6\r\nSTORED 7\r\nSTORED 8\r\nHELD 1\r\nOK\r\nTURN WENT 1 0 1 1 0\r\nSTAT slab_global_page_pool 0\r\nSTAT slab_reassign_running 1\r\nSTAT slabs_moved 0\r\nSTAT slab_reassign_rescues 0\r\nSTAT slab_reassign_evictions_nomem 1\r\nSTAT slab_reassign_busy_items 1\r\nEND\r\nBUSY\r\nDROPPED 1 22 100 101 102 103 104 105 106 107 108 109 110 111 112 113 114 115 116 117 118 119 120 121\r\nTURN FINISHED 1 0 1 0 0\r\nTURN IDLE 0 0 0 0 0\r\n",
    Ok(()),
);

/// Moves whose source is picked.
pub(super) const TWO_MOVES: Row<'static> = (
    "two moves whose source is picked",
    "1 set 1 61 0\n1 set 2 61 0\n1 set 3 61 0\n1 set 4 61 0\n1 set 11 20 0\n1 set 12 20 0\n1 set 13 20 0\n1 set 14 20 0\n1 set 15 20 0\n1 set 16 20 0\nreassign -1 1\nturn 1\nreassign -1 1\nturn 1\nstats\n",
    "STORED 1\r\nSTORED 2\r\nSTORED 3\r\nSTORED 4\r\nSTORED 11\r\nSTORED 12\r\nSTORED 13\r\nSTORED 14\r\nSTORED 15\r\nSTORED 16\r\nOK\r\nTURN FINISHED 5 4 1 0 0\r\nOK\r\nTURN FINISHED 2 0 2 0 0\r\nSTAT slab_global_page_pool 0\r\nSTAT slab_reassign_running 0\r\nSTAT slabs_moved 2\r\nSTAT slab_reassign_rescues 4\r\nSTAT slab_reassign_evictions_nomem 3\r\nSTAT slab_reassign_busy_items 0\r\nEND\r\n",
    Ok(()),
);

const ROWS: [Row<'static>; 7] = [
    (
        "a page goes to another class, and its items are evicted",
        "1 set 1 61 0\n1 set 2 61 0\n1 set 3 61 0\n1 set 4 61 0\n1 set 5 61 0\n1 set 6 61 0\n1 set 7 61 0\n1 set 8 61 0\nreassign 4 1\nturn 1\nstats\nstats slabs\n",
        "STORED 1\r\nSTORED 2\r\nSTORED 3\r\nSTORED 4\r\nSTORED 5\r\nSTORED 6\r\nSTORED 7\r\nSTORED 8\r\nOK\r\nTURN FINISHED 2 0 2 0 0\r\nSTAT slab_global_page_pool 0\r\nSTAT slab_reassign_running 0\r\nSTAT slabs_moved 1\r\nSTAT slab_reassign_rescues 0\r\nSTAT slab_reassign_evictions_nomem 2\r\nSTAT slab_reassign_busy_items 0\r\nEND\r\nSTAT 1:chunk_size 48\r\nSTAT 1:chunks_per_page 21\r\nSTAT 1:total_pages 1\r\nSTAT 1:total_chunks 21\r\nSTAT 1:used_chunks 0\r\nSTAT 1:free_chunks 21\r\nSTAT 4:chunk_size 512\r\nSTAT 4:chunks_per_page 2\r\nSTAT 4:total_pages 3\r\nSTAT 4:total_chunks 6\r\nSTAT 4:used_chunks 6\r\nSTAT 4:free_chunks 0\r\nSTAT active_slabs 2\r\nSTAT total_malloced 4096\r\nEND\r\n",
        Ok(()),
    ),
    (
        "an item of the moving page is rescued into a dead chunk",
        "1 set 1 22 100\n1 set 2 22 100\n1 set 3 22 100\n1 set 4 22 100\n1 set 5 22 100\n1 set 6 22 100\n1 set 7 22 100\n1 set 8 22 100\n1 del 8\nreassign 4 1\nturn 1\n1 touch 2\n1 touch 1\n1 get 2\n1 get 1\n",
        "STORED 1\r\nSTORED 2\r\nSTORED 3\r\nSTORED 4\r\nSTORED 5\r\nSTORED 6\r\nSTORED 7\r\nSTORED 8\r\nDELETED 8\r\nOK\r\nTURN FINISHED 2 1 1 0 0\r\nTOUCHED 2\r\nNOT_FOUND 1\r\nVALUE 2 22 100 101 102 103 104 105 106 107 108 109 110 111 112 113 114 115 116 117 118 119 120 121\r\nNOT_FOUND 1\r\n",
        Ok(()),
    ),
    HELD_UP,
    (
        "why no page begins to move",
        "1 set 1 61 0\nreassign 4 4\nreassign 0 0\nreassign 9 1\nreassign 0 1\nreassign 4 9\nreassign -1 1\nreassign 4 1\n",
        "STORED 1\r\nSAME\r\nSAME\r\nBADCLASS\r\nBADCLASS\r\nBADCLASS\r\nBADCLASS\r\nNOSPARE\r\n",
        Ok(()),
    ),
    (
        "a page goes into the pool, and from there to another class",
        "1 set 1 61 0\n1 set 2 61 0\n1 set 3 61 0\n1 set 4 61 0\nreassign 4 0\nturn 1\nstats\nstats slabs\n1 set 9 3 0\nstats\nstats slabs\n",
        "STORED 1\r\nSTORED 2\r\nSTORED 3\r\nSTORED 4\r\nOK\r\nTURN FINISHED 2 0 2 0 0\r\nSTAT slab_global_page_pool 1\r\nSTAT slab_reassign_running 0\r\nSTAT slabs_moved 1\r\nSTAT slab_reassign_rescues 0\r\nSTAT slab_reassign_evictions_nomem 2\r\nSTAT slab_reassign_busy_items 0\r\nEND\r\nSTAT 4:chunk_size 512\r\nSTAT 4:chunks_per_page 2\r\nSTAT 4:total_pages 1\r\nSTAT 4:total_chunks 2\r\nSTAT 4:used_chunks 2\r\nSTAT 4:free_chunks 0\r\nSTAT active_slabs 1\r\nSTAT total_malloced 2048\r\nEND\r\nSTORED 9\r\nSTAT slab_global_page_pool 0\r\nSTAT slab_reassign_running 0\r\nSTAT slabs_moved 1\r\nSTAT slab_reassign_rescues 0\r\nSTAT slab_reassign_evictions_nomem 2\r\nSTAT slab_reassign_busy_items 0\r\nEND\r\nSTAT 1:chunk_size 48\r\nSTAT 1:chunks_per_page 21\r\nSTAT 1:total_pages 1\r\nSTAT 1:total_chunks 21\r\nSTAT 1:used_chunks 1\r\nSTAT 1:free_chunks 20\r\nSTAT 4:chunk_size 512\r\nSTAT 4:chunks_per_page 2\r\nSTAT 4:total_pages 1\r\nSTAT 4:total_chunks 2\r\nSTAT 4:used_chunks 2\r\nSTAT 4:free_chunks 0\r\nSTAT active_slabs 2\r\nSTAT total_malloced 2048\r\nEND\r\n",
        Ok(()),
    ),
    TWO_MOVES,
    (
        "turns end with the move",
        "1 set 1 61 0\n1 set 2 61 0\n1 set 3 61 0\n1 set 4 61 0\n1 set 5 61 0\n1 set 6 61 0\n1 set 7 61 0\n1 set 8 61 0\nturn 1000000\nreassign 4 1\nturn 1000000\nturn 1000000\n",
        "STORED 1\r\nSTORED 2\r\nSTORED 3\r\nSTORED 4\r\nSTORED 5\r\nSTORED 6\r\nSTORED 7\r\nSTORED 8\r\nTURN IDLE 0 0 0 0 0\r\nOK\r\nTURN FINISHED 2 0 2 0 0\r\nTURN IDLE 0 0 0 0 0\r\n",
        Ok(()),
    ),
];

#[test]
fn rows_are_played(rt: HostRuntime) -> Result<(), Fail> {
    plays_rows(&rt, rt.alloc(), &ROWS)
}

#[test]
fn one_chunk_a_turn(rt: HostRuntime) -> Result<(), Fail> {
    let run = Run {
        config: Config {
            bulk: 1,
            ..FOUR_CLASSES
        },
        automove: 0,
    };
    let script =
        b"1 set 1 61 0\n1 set 2 61 0\n1 set 3 61 0\n1 set 4 61 0\n1 set 5 61 0\n1 set 6 61 0\n1 set 7 61 0\n1 set 8 61 0\nreassign 4 1\nturn 1\nturn 1\n";
    let replies =
        b"STORED 1\r\nSTORED 2\r\nSTORED 3\r\nSTORED 4\r\nSTORED 5\r\nSTORED 6\r\nSTORED 7\r\nSTORED 8\r\nOK\r\nTURN WENT 1 0 1 0 0\r\nTURN FINISHED 1 0 1 0 0\r\n";
    plays(
        &rt,
        rt.alloc(),
        run,
        script,
        replies,
        &Ok(()),
        "one chunk a turn",
    )
}

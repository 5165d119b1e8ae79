//! Rules that a reader of the plain machine may take otherwise: each row is named after the rule, and another reading of
//! it gives other replies.
ghost use Rattle.std.specs.Prelude.{◌≤◌};

use super::{FROM_MODE_0, Row, plays, plays_rows};
use mc_classes::Config;
use mc_driver::{Run, RunFault};
use std::alloc::{AllocError, Global};
use std::process::Abort;
use std::sync::Wait;
use std::test::Fail;
use testlib_values::FOUR_CLASSES;

const ROWS: [Row<'static>; 13] = [
    (
        "a drop puts nothing back",
        "1 set 1 61 0\n1 set 2 61 0\n1 set 3 61 0\n1 set 4 61 0\n1 set 5 61 0\n1 set 6 61 0\n1 set 7 61 0\n1 set 8 61 0\n1 hold 1\n1 del 1\n1 drop 1\n1 del 8\n1 set 9 61 0\nreassign 4 1\nturn 1\n",
        "STORED 1\r\nSTORED 2\r\nSTORED 3\r\nSTORED 4\r\nSTORED 5\r\nSTORED 6\r\nSTORED 7\r\nSTORED 8\r\nHELD 1\r\nDELETED 1\r\nDROPPED 1 61 0 1 2 3 4 5 6 7 8 9 10 11 12 13 14 15 16 17 18 19 20 21 22 23 24 25 26 27 28 29 30 31 32 33 34 35 36 37 38 39 40 41 42 43 44 45 46 47 48 49 50 51 52 53 54 55 56 57 58 59 60\r\nDELETED 8\r\nSTORED 9\r\nOK\r\nTURN FINISHED 2 0 1 0 0\r\n",
        Ok(()),
    ),
    (
        "a rescue looks behind the head",
        "1 set 11 20 0\n1 set 12 20 0\n1 set 13 20 0\n1 set 14 20 0\n1 set 15 20 0\n1 set 16 20 0\n1 set 17 20 0\n1 set 18 20 0\n1 set 19 20 0\n1 set 20 20 0\n1 touch 11\n1 del 11\n1 del 16\nreassign 3 1\nturn 1\n",
        "STORED 11\r\nSTORED 12\r\nSTORED 13\r\nSTORED 14\r\nSTORED 15\r\nSTORED 16\r\nSTORED 17\r\nSTORED 18\r\nSTORED 19\r\nSTORED 20\r\nTOUCHED 11\r\nDELETED 11\r\nDELETED 16\r\nOK\r\nTURN FINISHED 5 1 3 0 0\r\n",
        Ok(()),
    ),
    (
        "a set pops before it sweeps",
        "1 set 1 61 0\n1 set 2 61 0\n1 set 3 61 0\n1 set 4 61 0\n1 set 5 61 0\n1 set 6 61 0\n1 set 7 61 0\n1 del 1\n1 set 8 61 0\nreassign 4 1\nturn 1\n",
        "STORED 1\r\nSTORED 2\r\nSTORED 3\r\nSTORED 4\r\nSTORED 5\r\nSTORED 6\r\nSTORED 7\r\nDELETED 1\r\nSTORED 8\r\nOK\r\nTURN FINISHED 2 0 1 0 0\r\n",
        Ok(()),
    ),
    (
        "a set sweeps its own class",
        "1 set 11 20 0\n1 set 12 20 0\n1 set 13 20 0\n1 set 14 20 0\n1 set 15 20 0\n1 set 16 20 0\n1 set 17 20 0\n1 set 18 20 0\n1 set 19 20 0\n1 set 20 20 0\n1 set 1 61 0\n1 set 2 61 0\n1 set 3 61 0\n1 set 4 61 0\n1 del 11\n1 set 5 61 0\n1 del 20\n1 set 21 20 0\nreassign 3 1\nturn 1\n",
        "STORED 11\r\nSTORED 12\r\nSTORED 13\r\nSTORED 14\r\nSTORED 15\r\nSTORED 16\r\nSTORED 17\r\nSTORED 18\r\nSTORED 19\r\nSTORED 20\r\nSTORED 1\r\nSTORED 2\r\nSTORED 3\r\nSTORED 4\r\nDELETED 11\r\nSTORED 5\r\nDELETED 20\r\nSTORED 21\r\nOK\r\nTURN FINISHED 5 0 4 0 0\r\n",
        Ok(()),
    ),
    (
        "a touch of a held item",
        "1 set 1 61 0\n1 set 2 61 0\n1 set 3 61 0\n1 set 4 61 0\n1 set 5 61 0\n1 set 6 61 0\n1 set 7 61 0\n1 set 8 61 0\n1 hold 1\n1 touch 1\n1 drop 1\n1 set 9 61 0\n1 touch 1\n1 touch 2\n",
        "STORED 1\r\nSTORED 2\r\nSTORED 3\r\nSTORED 4\r\nSTORED 5\r\nSTORED 6\r\nSTORED 7\r\nSTORED 8\r\nHELD 1\r\nTOUCHED 1\r\nDROPPED 1 61 0 1 2 3 4 5 6 7 8 9 10 11 12 13 14 15 16 17 18 19 20 21 22 23 24 25 26 27 28 29 30 31 32 33 34 35 36 37 38 39 40 41 42 43 44 45 46 47 48 49 50 51 52 53 54 55 56 57 58 59 60\r\nSTORED 9\r\nTOUCHED 1\r\nNOT_FOUND 2\r\n",
        Ok(()),
    ),
    (
        "a touched dead chunk is put back last",
        "1 set 1 61 0\n1 set 2 61 0\n1 set 3 61 0\n1 set 4 61 0\n1 set 5 61 0\n1 set 6 61 0\n1 set 7 61 0\n1 set 8 61 0\n1 touch 1\n1 del 1\n1 del 8\n1 set 9 61 0\nreassign 4 1\nturn 1\n",
        "STORED 1\r\nSTORED 2\r\nSTORED 3\r\nSTORED 4\r\nSTORED 5\r\nSTORED 6\r\nSTORED 7\r\nSTORED 8\r\nTOUCHED 1\r\nDELETED 1\r\nDELETED 8\r\nSTORED 9\r\nOK\r\nTURN FINISHED 2 1 1 0 0\r\n",
        Ok(()),
    ),
    (
        "a turn over held chunks puts nothing back",
        "1 set 1 61 0\n1 set 2 61 0\n1 set 3 61 0\n1 set 4 61 0\n1 set 5 61 0\n1 set 6 61 0\n1 set 7 61 0\n1 set 8 61 0\n1 hold 1\n1 hold 2\n1 del 1\n1 del 2\n1 del 3\nreassign 4 1\nturn 1\n1 del 8\n1 set 9 61 0\n1 drop 1\n1 drop 2\nturn 1\nreassign 4 1\nturn 1\n",
        "STORED 1\r\nSTORED 2\r\nSTORED 3\r\nSTORED 4\r\nSTORED 5\r\nSTORED 6\r\nSTORED 7\r\nSTORED 8\r\nHELD 1\r\nHELD 2\r\nDELETED 1\r\nDELETED 2\r\nDELETED 3\r\nOK\r\nTURN WENT 0 0 0 2 0\r\nDELETED 8\r\nSTORED 9\r\nDROPPED 1 61 0 1 2 3 4 5 6 7 8 9 10 11 12 13 14 15 16 17 18 19 20 21 22 23 24 25 26 27 28 29 30 31 32 33 34 35 36 37 38 39 40 41 42 43 44 45 46 47 48 49 50 51 52 53 54 55 56 57 58 59 60\r\nDROPPED 2 61 0 1 2 3 4 5 6 7 8 9 10 11 12 13 14 15 16 17 18 19 20 21 22 23 24 25 26 27 28 29 30 31 32 33 34 35 36 37 38 39 40 41 42 43 44 45 46 47 48 49 50 51 52 53 54 55 56 57 58 59 60\r\nTURN FINISHED 2 0 0 0 0\r\nOK\r\nTURN FINISHED 2 0 1 0 0\r\n",
        Ok(()),
    ),
    (
        "a victim may stand on the moving page",
        "1 set 1 61 0\n1 set 2 61 0\n1 set 3 61 0\n1 set 4 61 0\n1 set 5 61 0\n1 set 6 61 0\n1 set 7 61 0\n1 set 8 61 0\nreassign 4 1\n1 set 9 61 0\n1 touch 1\n1 touch 3\n",
        "STORED 1\r\nSTORED 2\r\nSTORED 3\r\nSTORED 4\r\nSTORED 5\r\nSTORED 6\r\nSTORED 7\r\nSTORED 8\r\nOK\r\nSTORED 9\r\nNOT_FOUND 1\r\nTOUCHED 3\r\n",
        Ok(()),
    ),
    (
        "an unlinked held chunk is a candidate",
        "1 set 1 61 0\n1 set 2 61 0\n1 set 3 61 0\n1 set 4 61 0\n1 set 5 61 0\n1 set 6 61 0\n1 set 7 61 0\n1 set 8 61 0\n1 hold 1\n1 hold 2\n1 hold 3\n1 hold 4\n1 hold 5\n1 del 1\n1 set 9 61 0\n1 touch 6\n",
        "STORED 1\r\nSTORED 2\r\nSTORED 3\r\nSTORED 4\r\nSTORED 5\r\nSTORED 6\r\nSTORED 7\r\nSTORED 8\r\nHELD 1\r\nHELD 2\r\nHELD 3\r\nHELD 4\r\nHELD 5\r\nDELETED 1\r\nNO_ROOM 9\r\nTOUCHED 6\r\n",
        Ok(()),
    ),
    (
        "get and hold leave the order",
        "1 set 1 61 0\n1 set 2 61 0\n1 set 3 61 0\n1 set 4 61 0\n1 set 5 61 0\n1 set 6 61 0\n1 set 7 61 0\n1 set 8 61 0\n1 get 1\n1 hold 1\n1 drop 1\n1 set 9 61 0\n1 touch 1\n1 touch 2\n",
        "STORED 1\r\nSTORED 2\r\nSTORED 3\r\nSTORED 4\r\nSTORED 5\r\nSTORED 6\r\nSTORED 7\r\nSTORED 8\r\nVALUE 1 61 0 1 2 3 4 5 6 7 8 9 10 11 12 13 14 15 16 17 18 19 20 21 22 23 24 25 26 27 28 29 30 31 32 33 34 35 36 37 38 39 40 41 42 43 44 45 46 47 48 49 50 51 52 53 54 55 56 57 58 59 60\r\nHELD 1\r\nDROPPED 1 61 0 1 2 3 4 5 6 7 8 9 10 11 12 13 14 15 16 17 18 19 20 21 22 23 24 25 26 27 28 29 30 31 32 33 34 35 36 37 38 39 40 41 42 43 44 45 46 47 48 49 50 51 52 53 54 55 56 57 58 59 60\r\nSTORED 9\r\nNOT_FOUND 1\r\nTOUCHED 2\r\n",
        Ok(()),
    ),
    (
        "no room keeps the old item",
        "1 set 1 61 0\n1 set 2 61 0\n1 set 3 61 0\n1 set 4 61 0\n1 set 5 61 0\n1 set 6 61 0\n1 set 7 61 0\n1 set 8 61 0\n1 hold 1\n1 hold 2\n1 hold 3\n1 hold 4\n1 hold 5\n1 set 8 61 0\n1 touch 8\n",
        "STORED 1\r\nSTORED 2\r\nSTORED 3\r\nSTORED 4\r\nSTORED 5\r\nSTORED 6\r\nSTORED 7\r\nSTORED 8\r\nHELD 1\r\nHELD 2\r\nHELD 3\r\nHELD 4\r\nHELD 5\r\nNO_ROOM 8\r\nTOUCHED 8\r\n",
        Ok(()),
    ),
    (
        "stats puts nothing back",
        "1 set 1 61 0\n1 set 2 61 0\n1 set 3 61 0\n1 set 4 61 0\n1 set 5 61 0\n1 set 6 61 0\n1 set 7 61 0\n1 set 8 61 0\n1 del 1\nstats\n1 del 8\n1 set 9 61 0\nreassign 4 1\nturn 1\n",
        "STORED 1\r\nSTORED 2\r\nSTORED 3\r\nSTORED 4\r\nSTORED 5\r\nSTORED 6\r\nSTORED 7\r\nSTORED 8\r\nDELETED 1\r\nSTAT slab_global_page_pool 0\r\nSTAT slab_reassign_running 0\r\nSTAT slabs_moved 0\r\nSTAT slab_reassign_rescues 0\r\nSTAT slab_reassign_evictions_nomem 0\r\nSTAT slab_reassign_busy_items 0\r\nEND\r\nDELETED 8\r\nSTORED 9\r\nOK\r\nTURN FINISHED 2 0 1 0 0\r\n",
        Ok(()),
    ),
    (
        "stats while a page moves",
        "1 set 1 61 0\n1 set 2 61 0\n1 set 3 61 0\n1 set 4 61 0\n1 set 5 61 0\n1 set 6 61 0\n1 set 7 61 0\n1 set 8 61 0\n1 hold 1\nreassign 4 1\nturn 1\nstats slabs\nreassign 1 1\n",
        "STORED 1\r\nSTORED 2\r\nSTORED 3\r\nSTORED 4\r\nSTORED 5\r\nSTORED 6\r\nSTORED 7\r\nSTORED 8\r\nHELD 1\r\nOK\r\nTURN WENT 1 0 1 1 0\r\nSTAT 4:chunk_size 512\r\nSTAT 4:chunks_per_page 2\r\nSTAT 4:total_pages 4\r\nSTAT 4:total_chunks 8\r\nSTAT 4:used_chunks 8\r\nSTAT 4:free_chunks 0\r\nSTAT active_slabs 1\r\nSTAT total_malloced 4096\r\nEND\r\nBUSY\r\n",
        Ok(()),
    ),
];

/// A name, how the run is started, a script and what is written. The run ends well.
type StartedRow<'a> = (&'a str, Run, &'a str, &'a str);

const STARTED_ROWS: [StartedRow<'static>; 5] = [
    (
        "a moving page counts for quiet",
        Run {
            config: FOUR_CLASSES,
            automove: 1,
        },
        "1 set 11 20 0\n1 set 12 20 0\n1 set 13 20 0\n1 set 14 20 0\n1 set 15 20 0\n1 set 16 20 0\n1 set 17 20 0\n1 set 18 20 0\n1 set 19 20 0\n1 set 20 20 0\n1 set 21 20 0\n1 set 22 20 0\n1 set 23 20 0\n1 set 24 20 0\n1 set 25 20 0\n1 set 1 61 0\n1 set 2 61 0\n1 hold 11\nreassign 3 0\n1 set 3 61 0\nwindow\n1 set 4 61 0\nwindow\n1 set 5 61 0\nwindow\n",
        "STORED 11\r\nSTORED 12\r\nSTORED 13\r\nSTORED 14\r\nSTORED 15\r\nSTORED 16\r\nSTORED 17\r\nSTORED 18\r\nSTORED 19\r\nSTORED 20\r\nSTORED 21\r\nSTORED 22\r\nSTORED 23\r\nSTORED 24\r\nSTORED 25\r\nSTORED 1\r\nSTORED 2\r\nHELD 11\r\nOK\r\nSTORED 3\r\nWINDOW none\r\nSTORED 4\r\nWINDOW none\r\nSTORED 5\r\nWINDOW 3 4 BUSY\r\n",
    ),
    (
        "an eviction of the own old item counts",
        Run {
            config: FOUR_CLASSES,
            automove: 1,
        },
        "1 set 11 20 0\n1 set 12 20 0\n1 set 13 20 0\n1 set 14 20 0\n1 set 15 20 0\n1 set 16 20 0\n1 set 17 20 0\n1 set 18 20 0\n1 set 19 20 0\n1 set 20 20 0\n1 set 21 20 0\n1 set 22 20 0\n1 set 23 20 0\n1 set 24 20 0\n1 set 25 20 0\n1 set 1 61 0\n1 set 2 61 0\n1 set 1 61 0\nwindow\n1 set 2 61 0\nwindow\n1 set 1 61 0\nwindow\n",
        "STORED 11\r\nSTORED 12\r\nSTORED 13\r\nSTORED 14\r\nSTORED 15\r\nSTORED 16\r\nSTORED 17\r\nSTORED 18\r\nSTORED 19\r\nSTORED 20\r\nSTORED 21\r\nSTORED 22\r\nSTORED 23\r\nSTORED 24\r\nSTORED 25\r\nSTORED 1\r\nSTORED 2\r\nSTORED 1\r\nWINDOW none\r\nSTORED 2\r\nWINDOW none\r\nSTORED 1\r\nWINDOW 3 4 OK\r\n",
    ),
    (
        "bulk counts each chunk looked at",
        Run {
            config: Config {
                bulk: 1,
                ..FOUR_CLASSES
            },
            automove: 0,
        },
        "1 set 1 61 0\n1 set 2 61 0\n1 set 3 61 0\n1 set 4 61 0\n1 set 5 61 0\n1 set 6 61 0\n1 set 7 61 0\n1 set 8 61 0\n1 hold 1\nreassign 4 1\nturn 1\nturn 1\n1 drop 1\nturn 1\nturn 1\n",
        "STORED 1\r\nSTORED 2\r\nSTORED 3\r\nSTORED 4\r\nSTORED 5\r\nSTORED 6\r\nSTORED 7\r\nSTORED 8\r\nHELD 1\r\nOK\r\nTURN WENT 1 0 1 0 0\r\nTURN WENT 0 0 0 1 0\r\nDROPPED 1 61 0 1 2 3 4 5 6 7 8 9 10 11 12 13 14 15 16 17 18 19 20 21 22 23 24 25 26 27 28 29 30 31 32 33 34 35 36 37 38 39 40 41 42 43 44 45 46 47 48 49 50 51 52 53 54 55 56 57 58 59 60\r\nTURN WENT 0 0 0 0 0\r\nTURN FINISHED 1 0 1 0 0\r\n",
    ),
    (
        "mode 2 asks for a page after an eviction alone",
        Run {
            config: FOUR_CLASSES,
            automove: 2,
        },
        "1 set 1 61 0\n1 set 2 61 0\n1 set 3 61 0\n1 set 4 61 0\n1 set 11 20 0\n1 set 12 20 0\n1 set 13 20 0\n1 set 14 20 0\n1 set 15 20 0\n1 set 16 20 0\n1 del 1\n1 set 5 61 0\nturn 1\n1 hold 2\n1 hold 3\n1 hold 4\n1 hold 5\n1 set 90 61 0\nturn 1\n1 set 91 3 0\nturn 1\n",
        "STORED 1\r\nSTORED 2\r\nSTORED 3\r\nSTORED 4\r\nSTORED 11\r\nSTORED 12\r\nSTORED 13\r\nSTORED 14\r\nSTORED 15\r\nSTORED 16\r\nDELETED 1\r\nSTORED 5\r\nTURN IDLE 0 0 0 0 0\r\nHELD 2\r\nHELD 3\r\nHELD 4\r\nHELD 5\r\nNO_ROOM 90\r\nTURN IDLE 0 0 0 0 0\r\nSTORED 91\r\nTURN IDLE 0 0 0 0 0\r\n",
    ),
    (
        "the mover's evictions are not the class's",
        Run {
            config: Config {
                limit: 8192,
                ..FOUR_CLASSES
            },
            automove: 1,
        },
        "1 set 11 20 0\n1 set 12 20 0\n1 set 13 20 0\n1 set 14 20 0\n1 set 15 20 0\n1 set 16 20 0\n1 set 17 20 0\n1 set 18 20 0\n1 set 19 20 0\n1 set 20 20 0\n1 set 21 20 0\n1 set 22 20 0\n1 set 23 20 0\n1 set 24 20 0\n1 set 25 20 0\n1 set 26 20 0\n1 set 27 20 0\n1 set 28 20 0\n1 set 29 20 0\n1 set 30 20 0\n1 set 1 61 0\n1 set 2 61 0\n1 set 3 61 0\n1 set 4 61 0\n1 set 5 61 0\n1 set 6 61 0\n1 set 7 61 0\n1 set 8 61 0\nreassign 3 0\nturn 1\n1 set 9 3 0\n1 set 50 61 0\nwindow\n1 set 51 61 0\nwindow\n1 set 52 61 0\nwindow\n",
        "STORED 11\r\nSTORED 12\r\nSTORED 13\r\nSTORED 14\r\nSTORED 15\r\nSTORED 16\r\nSTORED 17\r\nSTORED 18\r\nSTORED 19\r\nSTORED 20\r\nSTORED 21\r\nSTORED 22\r\nSTORED 23\r\nSTORED 24\r\nSTORED 25\r\nSTORED 26\r\nSTORED 27\r\nSTORED 28\r\nSTORED 29\r\nSTORED 30\r\nSTORED 1\r\nSTORED 2\r\nSTORED 3\r\nSTORED 4\r\nSTORED 5\r\nSTORED 6\r\nSTORED 7\r\nSTORED 8\r\nOK\r\nTURN FINISHED 5 0 5 0 0\r\nSTORED 9\r\nSTORED 50\r\nWINDOW none\r\nSTORED 51\r\nWINDOW none\r\nSTORED 52\r\nWINDOW 3 4 OK\r\n",
    ),
];

/// A turn that finds nothing to do is one of the 1,000,000 that a run has, so the script's last turns run out.
#[test]
fn an_idle_turn_counts(rt: HostRuntime) -> Result<(), Fail> {
    let script =
        "1 set 1 61 0\n1 set 2 61 0\n1 set 3 61 0\n1 set 4 61 0\n1 set 5 61 0\n1 set 6 61 0\n1 set 7 61 0\n1 set 8 61 0\nturn 1\n1 hold 1\nreassign 4 1\nturn 1000000\n";
    let replies =
        "STORED 1\r\nSTORED 2\r\nSTORED 3\r\nSTORED 4\r\nSTORED 5\r\nSTORED 6\r\nSTORED 7\r\nSTORED 8\r\nTURN IDLE 0 0 0 0 0\r\nHELD 1\r\nOK\r\n";
    plays(
        &rt,
        rt.alloc(),
        FROM_MODE_0,
        script.as_bytes(),
        replies.as_bytes(),
        &Err(RunFault::Turns),
        "an idle turn counts",
    )
}

#[test]
fn rules_hold_of_runs_with_options(rt: HostRuntime) -> Result<(), Fail> {
    for (name, run, script, replies) in &STARTED_ROWS {
        assert!(rt; run.automove <= 2, "the mode of: {name}");
        plays(
            &rt,
            rt.alloc(),
            *run,
            script.as_bytes(),
            replies.as_bytes(),
            &Ok(()),
            name,
        )?;
    }
    Ok(())
}

#[test]
fn rows_are_played(rt: HostRuntime) -> Result<(), Fail> {
    plays_rows(&rt, rt.alloc(), &ROWS)
}

/// A script that grows, and its replies.
#[derive(Drop)]
struct Told {
    script: Vec<u8>,
    replies: Vec<u8>,
}

/// No line.
fn nothing_told(alloc: Global) -> Told {
    Told {
        script: Vec::new(alloc),
        replies: Vec::new(alloc),
    }
}

/// The script has these replies, and its run ends well.
fn plays_told<R: Abort + Wait>(
    rt: &R,
    alloc: Global,
    run: Run,
    told: &Told,
    name: &str,
) -> Result<(), Fail>
    requires { run.automove ≤ 2 }
{
    plays(rt, alloc, run, &told.script, &told.replies, &Ok(()), name)
}

/// Adds a line and its reply.
fn push(told: &mut Told, line: &str, reply: &str) -> Result<(), AllocError> {
    told.script.extend_from_slice(line.as_bytes())?;
    told.replies.extend_from_slice(reply.as_bytes())?;
    Ok(())
}

/// Adds sets of n words under these keys.
fn push_sets(
    alloc: Global,
    told: &mut Told,
    first: u64,
    last: u64,
    words: u64,
) -> Result<(), AllocError> {
    for key in first..=last {
        let line = format!(in alloc; "1 set {key} {words} 0\n")?;
        let reply = format!(in alloc; "STORED {key}\r\n")?;
        push(told, &line, &reply)?;
    }
    Ok(())
}

/// Adds deletes of these keys.
fn push_deletes(alloc: Global, told: &mut Told, first: u64, last: u64) -> Result<(), AllocError> {
    for key in first..=last {
        let line = format!(in alloc; "1 del {key}\n")?;
        let reply = format!(in alloc; "DELETED {key}\r\n")?;
        push(told, &line, &reply)?;
    }
    Ok(())
}

/// Class 4 leads three windows while class 1 is quiet, and class 1 has a page to spare for the pool too.
#[test]
fn of_two_rules_that_apply_the_one_of_evictions_comes_first(rt: HostRuntime) -> Result<(), Fail> {
    let run = Run {
        config: Config {
            limit: 8192,
            ..FOUR_CLASSES
        },
        automove: 1,
    };
    let mut told = nothing_told(rt.alloc());
    push_sets(rt.alloc(), &mut told, 101, 163, 3)?;
    push_sets(rt.alloc(), &mut told, 11, 25, 20)?;
    push_sets(rt.alloc(), &mut told, 1, 4, 61)?;
    push_deletes(rt.alloc(), &mut told, 101, 159)?;
    push(
        &mut told,
        "automove 0\n1 set 5 61 0\nwindow\n1 set 6 61 0\nwindow\nautomove 1\n1 set 7 61 0\nwindow\n",
        "OK\r\nSTORED 5\r\nWINDOW none\r\nSTORED 6\r\nWINDOW none\r\nOK\r\nSTORED 7\r\nWINDOW 1 4 OK\r\n",
    )?;
    plays_told(&rt, rt.alloc(), run, &told, "two rules")
}

/// A page of 256 chunks moves, so chunks have indices of 200 and above.
#[test]
fn a_page_of_256_chunks_moves(rt: HostRuntime) -> Result<(), Fail> {
    let run = Run {
        config: Config {
            page: 16384,
            limit: 65536,
            first: 64,
            max: 16384,
            ..FOUR_CLASSES
        },
        automove: 0,
    };
    let mut told = nothing_told(rt.alloc());
    push_sets(rt.alloc(), &mut told, 1, 299, 1)?;
    push(
        &mut told,
        "reassign 1 2\nturn 9\nstats\nstats slabs\n",
        "OK\r\nTURN FINISHED 256 213 43 0 0\r\nSTAT slab_global_page_pool 0\r\nSTAT slab_reassign_running 0\r\nSTAT slabs_moved 1\r\nSTAT slab_reassign_rescues 213\r\nSTAT slab_reassign_evictions_nomem 43\r\nSTAT slab_reassign_busy_items 0\r\nEND\r\nSTAT 1:chunk_size 64\r\nSTAT 1:chunks_per_page 256\r\nSTAT 1:total_pages 1\r\nSTAT 1:total_chunks 256\r\nSTAT 1:used_chunks 256\r\nSTAT 1:free_chunks 0\r\nSTAT 2:chunk_size 128\r\nSTAT 2:chunks_per_page 128\r\nSTAT 2:total_pages 1\r\nSTAT 2:total_chunks 128\r\nSTAT 2:used_chunks 0\r\nSTAT 2:free_chunks 128\r\nSTAT active_slabs 2\r\nSTAT total_malloced 32768\r\nEND\r\n",
    )?;
    plays_told(&rt, rt.alloc(), run, &told, "a page of 256 chunks")
}

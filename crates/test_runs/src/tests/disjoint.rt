//! Workers on keys of their own.
use super::play::play;
use mc_driver::Free;
use std::test::Fail;

/// Workers 1 to 4, each with five keys of its own.
const SCRIPT: &[u8] = b"1 set 11 3 7\n2 set 21 3 7\n3 set 31 3 7\n4 set 41 3 7\n\
1 set 12 3 7\n2 set 22 3 7\n3 set 32 3 7\n4 set 42 3 7\n\
1 set 13 3 7\n2 set 23 3 7\n3 set 33 3 7\n4 set 43 3 7\n\
1 set 14 3 7\n2 set 24 3 7\n3 set 34 3 7\n4 set 44 3 7\n\
1 set 15 3 7\n2 set 25 3 7\n3 set 35 3 7\n4 set 45 3 7\n";

/// The replies, worker by worker, and the statistics.
const TEXT: &[u8] = b"STORED 11\r\nSTORED 12\r\nSTORED 13\r\nSTORED 14\r\nSTORED 15\r\n\
STORED 21\r\nSTORED 22\r\nSTORED 23\r\nSTORED 24\r\nSTORED 25\r\n\
STORED 31\r\nSTORED 32\r\nSTORED 33\r\nSTORED 34\r\nSTORED 35\r\n\
STORED 41\r\nSTORED 42\r\nSTORED 43\r\nSTORED 44\r\nSTORED 45\r\n\
STAT 1:chunk_size 48\r\nSTAT 1:chunks_per_page 21\r\nSTAT 1:total_pages 1\r\n\
STAT 1:total_chunks 21\r\nSTAT 1:used_chunks 20\r\nSTAT 1:free_chunks 1\r\n\
STAT active_slabs 1\r\nSTAT total_malloced 1024\r\nEND\r\n\
STAT slab_global_page_pool 0\r\nSTAT slab_reassign_running 0\r\nSTAT slabs_moved 0\r\n\
STAT slab_reassign_rescues 0\r\nSTAT slab_reassign_evictions_nomem 0\r\nSTAT slab_reassign_busy_items 0\r\nEND\r\n";

#[test]
fn two_hundred_runs_tell_the_same(rt: HostRuntime) -> Result<(), Fail> {
    for run in 0..200 {
        let played = play(&rt, rt.alloc(), &Free, SCRIPT);
        assert!(rt; played.is(&Ok(()), TEXT), "the text of run {run}");
    }
    Ok(())
}

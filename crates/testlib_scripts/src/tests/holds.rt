//! Runs that read, hold, give back and touch items.
use super::{FROM_MODE_0, Row, plays, plays_rows};
use std::alloc::{AllocError, Global};
use std::test::Fail;

const ROWS: [Row<'static>; 6] = [
    (
        "an item that was touched is not the oldest any more",
        "1 set 1 61 0\n1 set 2 61 0\n1 set 3 61 0\n1 set 4 61 0\n1 set 5 61 0\n1 set 6 61 0\n1 set 7 61 0\n1 set 8 61 0\n1 touch 1\n1 set 9 61 0\n1 get 2\n1 touch 1\n",
        "STORED 1\r\nSTORED 2\r\nSTORED 3\r\nSTORED 4\r\nSTORED 5\r\nSTORED 6\r\nSTORED 7\r\nSTORED 8\r\nTOUCHED 1\r\nSTORED 9\r\nNOT_FOUND 2\r\nTOUCHED 1\r\n",
        Ok(()),
    ),
    (
        "held items are passed over",
        "1 set 1 61 0\n1 set 2 61 0\n1 set 3 61 0\n1 set 4 61 0\n1 set 5 61 0\n1 set 6 61 0\n1 set 7 61 0\n1 set 8 61 0\n1 hold 1\n1 hold 2\n1 hold 3\n1 hold 4\n1 set 9 61 0\n1 touch 5\n",
        "STORED 1\r\nSTORED 2\r\nSTORED 3\r\nSTORED 4\r\nSTORED 5\r\nSTORED 6\r\nSTORED 7\r\nSTORED 8\r\nHELD 1\r\nHELD 2\r\nHELD 3\r\nHELD 4\r\nSTORED 9\r\nNOT_FOUND 5\r\n",
        Ok(()),
    ),
    (
        "where all candidates are held there is no room",
        "1 set 1 61 0\n1 set 2 61 0\n1 set 3 61 0\n1 set 4 61 0\n1 set 5 61 0\n1 set 6 61 0\n1 set 7 61 0\n1 set 8 61 0\n1 hold 1\n1 hold 2\n1 hold 3\n1 hold 4\n1 hold 5\n1 set 9 61 0\n",
        "STORED 1\r\nSTORED 2\r\nSTORED 3\r\nSTORED 4\r\nSTORED 5\r\nSTORED 6\r\nSTORED 7\r\nSTORED 8\r\nHELD 1\r\nHELD 2\r\nHELD 3\r\nHELD 4\r\nHELD 5\r\nNO_ROOM 9\r\n",
        Ok(()),
    ),
    (
        "a hold keeps the words that stood when it was taken",
        "1 set 1 3 7\n1 hold 1\n1 set 1 3 50\n1 get 1\n1 drop 1\n1 drop 1\n1 get 1\n",
        "STORED 1\r\nHELD 1\r\nSTORED 1\r\nVALUE 1 3 50 51 52\r\nDROPPED 1 3 7 8 9\r\nNOT_HELD 1\r\nVALUE 1 3 50 51 52\r\n",
        Ok(()),
    ),
    (
        "of two holds of a key the newer is given back first, by its worker alone",
        "1 set 1 1 7\n1 hold 1\n1 set 1 2 50\n1 hold 1\n1 del 1\n1 get 1\n2 drop 1\n1 drop 1\n1 drop 1\n1 drop 1\n",
        "STORED 1\r\nHELD 1\r\nSTORED 1\r\nHELD 1\r\nDELETED 1\r\nNOT_FOUND 1\r\nNOT_HELD 1\r\nDROPPED 1 2 50 51\r\nDROPPED 1 1 7\r\nNOT_HELD 1\r\n",
        Ok(()),
    ),
    (
        "what isn't there",
        "1 get 1\n1 hold 1\n1 drop 1\n1 touch 1\n1 del 1\n",
        "NOT_FOUND 1\r\nNOT_FOUND 1\r\nNOT_HELD 1\r\nNOT_FOUND 1\r\nNOT_FOUND 1\r\n",
        Ok(()),
    ),
];

/// Lines of a worker that holds as much as it may, their replies, and how often these come one after another.
const MOST_HELD: [(&str, &str, u64); 4] = [
    ("1 set 1 3 7\n1 set 2 1 5\n", "STORED 1\r\nSTORED 2\r\n", 1),
    ("1 hold 1\n", "HELD 1\r\n", 254),
    (
        "1 get 1\n1 del 1\n1 hold 2\n1 hold 2\n1 get 2\n1 get 9\n1 hold 9\n1 touch 2\n",
        "VALUE 1 3 7 8 9\r\nDELETED 1\r\nHELD 2\r\nTOO_MANY_REFS 2\r\nTOO_MANY_REFS 2\r\nTOO_MANY_REFS 9\r\nTOO_MANY_REFS 9\r\nTOUCHED 2\r\n",
        1,
    ),
    (
        "2 hold 2\n2 get 2\n1 drop 9\n1 drop 1\n1 get 2\n1 hold 2\n1 get 1\n1 drop 2\n",
        "HELD 2\r\nVALUE 2 1 5\r\nNOT_HELD 9\r\nDROPPED 1 3 7 8 9\r\nVALUE 2 1 5\r\nHELD 2\r\nTOO_MANY_REFS 1\r\nDROPPED 2 1 5\r\n",
        1,
    ),
];

/// The script of these lines, and its replies.
fn most_held(alloc: Global) -> Result<(Vec<u8>, Vec<u8>), AllocError> {
    let mut script = Vec::new(alloc);
    let mut replies = Vec::new(alloc);
    for (line, reply, times) in &MOST_HELD {
        for _ in 0..*times {
            script.extend_from_slice(line.as_bytes())?;
            replies.extend_from_slice(reply.as_bytes())?;
        }
    }
    Ok((script, replies))
}

/// With 255 holds a worker is refused whatever the key, and only it. Holds of items without a key count.
#[test]
fn a_worker_holds_at_most_255_chunks(rt: HostRuntime) -> Result<(), Fail> {
    let (script, replies) = most_held(rt.alloc())?;
    plays(
        &rt,
        rt.alloc(),
        FROM_MODE_0,
        &script,
        &replies,
        &Ok(()),
        "255 holds",
    )
}

#[test]
fn rows_are_played(rt: HostRuntime) -> Result<(), Fail> {
    plays_rows(&rt, rt.alloc(), &ROWS)
}

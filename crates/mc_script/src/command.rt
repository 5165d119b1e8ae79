//! The commands of a script.

/// What a line asks for. Workers are numbered from 1 to 63, and keys, bases and classes are any numbers.
#[derive(Clone, Copy, PartialEq, Eq)]
pub enum Command {
    /// `<worker> set <key> <n> <base>`: an item of n words, at most 4096: base, base + 1 and so on modulo 2^64.
    Set {
        worker: u64,
        key: u64,
        words: u64,
        base: u64,
    },
    /// `<worker> del <key>`: the item is deleted.
    Delete {
        worker: u64,
        key: u64,
    },
    /// `<worker> get <key>`: the reply has the item's words.
    Get {
        worker: u64,
        key: u64,
    },
    /// `<worker> hold <key>`: the worker keeps a reference to the item.
    Hold {
        worker: u64,
        key: u64,
    },
    /// `<worker> drop <key>`: the worker's last kept reference to the key is given back.
    Drop {
        worker: u64,
        key: u64,
    },
    /// `<worker> touch <key>`: the item becomes the youngest of its class.
    Touch {
        worker: u64,
        key: u64,
    },
    /// `reassign <src> <dst>`: a page is to go from the class `src` to the class `dst`; `-1` names no source.
    Reassign {
        src: Option<u64>,
        dst: u64,
    },
    /// `automove <m>`: from here on the automover works in this mode, 0, 1 or 2.
    Automove {
        mode: u64,
    },
    /// `window`: a window of the automover ends.
    Window,
    /// `turn <n>`: n turns of the mover, from 1 to 1,000,000.
    Turn {
        turns: u64,
    },
    /// `stats`: the reply has the general statistics.
    Stats,
    /// `stats slabs`: the reply has the numbers of each class.
    StatsSlabs,
}

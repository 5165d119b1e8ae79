//! The replies to a worker's lines, and their text.
ghost use Rattle.std.specs.Prelude.{◌≡◌, ◌++◌, OnOk};
ghost use Rattle.mc_workers.specs.Replies.{reply_text};

use mc_memory::Refused;
use mc_replies::{push_key_line, push_words_line};

/// The answer to a worker's line, which is about its key.
#[derive(Drop)]
pub enum Reply {
    /// The item was stored.
    Stored,
    /// No class has chunks of that size.
    TooLarge,
    /// The class came to no free chunk.
    NoRoom,
    /// The chunk's issue numbers are used up, or the hand's stamps.
    WornOut,
    /// The words of the key's item.
    Value(Vec<u64>),
    /// The worker holds the key's item.
    Held,
    /// The worker's last hold of the key was given back; these are the words of what it was of.
    Dropped(Vec<u64>),
    /// The key's item was deleted.
    Deleted,
    /// The key's item became the youngest of its class.
    Touched,
    /// The key has no item.
    NotFound,
    /// The worker holds nothing by this key.
    NotHeld,
    /// The worker holds `MOST_REFS` chunks.
    TooManyRefs,
}

/// Adds the line of the reply. Where memory runs out, the text that was there stays, and some of the line may follow it.
pub fn push_reply(text: &mut Vec<u8>, key: u64, reply: &Reply) -> Result<(), Refused>
    ensures line { OnOk result (text.new.items ≡ text.old.items ++ reply_text key reply.now) }
{
    match reply {
        Reply::Stored => push_key_line(text, b"STORED", key),
        Reply::TooLarge => push_key_line(text, b"TOO_LARGE", key),
        Reply::NoRoom => push_key_line(text, b"NO_ROOM", key),
        Reply::WornOut => push_key_line(text, b"WORN_OUT", key),
        Reply::Value(words) => push_words_line(text, b"VALUE", key, words),
        Reply::Held => push_key_line(text, b"HELD", key),
        Reply::Dropped(words) => push_words_line(text, b"DROPPED", key, words),
        Reply::Deleted => push_key_line(text, b"DELETED", key),
        Reply::Touched => push_key_line(text, b"TOUCHED", key),
        Reply::NotFound => push_key_line(text, b"NOT_FOUND", key),
        Reply::NotHeld => push_key_line(text, b"NOT_HELD", key),
        Reply::TooManyRefs => push_key_line(text, b"TOO_MANY_REFS", key),
    }
}

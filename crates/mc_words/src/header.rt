//! The parts of a header's word, which is `issue * 2^18 + tag * 2^16 + count`.
ghost use Rattle.std.specs.Prelude.{◌≡◌};
ghost use Rattle.mc_core.specs.run.Evictions.{is_linked_unheld};
ghost use Rattle.mc_core.specs.model.Head.{decode, is_linked, is_out};
ghost use Rattle.mc_words.specs.item.Again.{is_there};
ghost use Rattle.mc_words.specs.page.Owner.{is_unused};

/// The number by which a header's word multiplies the issue number.
pub(crate) const ISSUE_UNIT: u64 = 262_144;

/// What a tag's number is multiplied by. From one tag to the next it is added once.
pub(crate) const TAG_UNIT: u64 = 65_536;

/// The tag and the count of a dead chunk: it is unlinked, and nobody holds it.
pub(crate) const DEAD: u64 = 2 * TAG_UNIT;

/// What handing a free chunk out adds: the next issue, the next tag, and one holder.
pub(crate) const HANDED_OUT: u64 = ISSUE_UNIT + TAG_UNIT + 1;

/// What linking an unlinked chunk adds, and unlinking it takes: the next tag, and the link's own count.
pub(crate) const LINKED: u64 = TAG_UNIT + 1;

/// The greatest issue number, with which a chunk is used up.
pub(crate) const MOST_ISSUE: u64 = 70_368_744_177_663;

/// The tag and the count of a chunk that is linked and held by nobody: the link counts 1.
pub(crate) const UNHELD: u64 = 3 * TAG_UNIT + 1;

/// The tag's number of a chunk that is out.
pub(crate) const OUT_TAG: u64 = 0;

/// The tag's number of a linked chunk.
pub(crate) const LINKED_TAG: u64 = 3;

/// The tag's number of a free chunk.
pub(crate) const FREE_TAG: u64 = 1;

/// Whether this is the header of a linked chunk that was handed out with this issue number.
pub(crate) fn is_there(word: u64, issue: u64) -> bool
    ensures there { result ≡ is_there issue (decode word) }
{
    word / TAG_UNIT % 4 == LINKED_TAG && word / ISSUE_UNIT == issue
}

/// Whether this is the header of a chunk that was cleared, or never cut.
pub fn is_out(word: u64) -> bool
    ensures out { result ≡ is_out (decode word).tag }
{
    word / TAG_UNIT % 4 == OUT_TAG
}

/// Whether this is the header of a linked chunk.
pub fn is_linked(word: u64) -> bool
    ensures linked { result ≡ is_linked (decode word).tag }
{
    word / TAG_UNIT % 4 == LINKED_TAG
}

/// Whether this is the header of a linked chunk that nobody holds: the link counts 1.
pub fn is_unheld(word: u64) -> bool
    ensures unheld { result ≡ is_linked_unheld (decode word) }
{
    word % ISSUE_UNIT == UNHELD
}

/// Whether this is the header of a chunk that is free, or dead.
pub(crate) fn is_unused(word: u64) -> bool
    ensures unused { result ≡ is_unused (decode word) }
{
    word / TAG_UNIT % 4 == FREE_TAG || word % ISSUE_UNIT == DEAD
}

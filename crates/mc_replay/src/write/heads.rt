//! The lines of the headers that aren't 0.
ghost use Rattle.std.specs.Prelude.{◌≡◌, ◌++◌, OnOk, string_bytes};
ghost use Rattle.mc_replay.specs.Written.{heads_text, page_headers_text, word_text};

use mc_core::State;
use mc_pages::ChunkId;
use std::alloc::AllocError;

/// The headers of all pages.
pub(super) fn heads(text: &mut String, state: &State) -> Result<(), AllocError>
    ensures { OnOk result (string_bytes text.new ≡ string_bytes text.old ++ heads_text state.now) }
{
    let table = state.table();
    let pages = table.arena_pages();
    let most = table.per_page(1);
    for page in 0..pages {
        page_heads(text, state, page, most)?;
    }
    Ok(())
}

/// The headers of a page with n chunks.
fn page_heads(text: &mut String, state: &State, page: u64, count: u64) -> Result<(), AllocError>
    ensures { OnOk result (string_bytes text.new ≡ string_bytes text.old
        ++ page_headers_text state.now count page) }
{
    for index in 0..count {
        let chunk = ChunkId { page, index };
        let word = state.head(chunk).word();
        head(text, chunk, word)?;
    }
    Ok(())
}

/// The header of a chunk, if it isn't 0.
fn head(text: &mut String, chunk: ChunkId, word: u64) -> Result<(), AllocError>
    ensures { OnOk result (string_bytes text.new ≡ string_bytes text.old ++ word_text chunk word) }
{
    if word == 0 {
        return Ok(());
    }
    let ChunkId { page, index } = chunk;
    writeln!(text, "head {page} {index} {word}")
}

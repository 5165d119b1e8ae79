//! Items that are held while others act.
ghost use Rattle.std.specs.Prelude.{IfOk, IfSome};
ghost use Rattle.mc_words.specs.hand.Arenas.{view};
ghost use Rattle.mc_items.specs.ItemRefs.{IsItemRef};
ghost use Rattle.mc_words.specs.hand.Ready.{IsReadyHandOf};
ghost use Rattle.test_refusals.specs.Threes.{AreReadyOf};

use super::looking::{Looker, look_after, look_before};
use super::opening::Three;
use mc_items::{GetError, Ref, get, read};
use mc_stripe::Key;
use mc_words::{Arena, Hand};
use std::sync::Wait;
use testlib_hands::get_key;
use testlib_values::{print_call, print_done, print_refused};

// A reference to the key's item, if it has one.
fn get_item<R: Wait>(
    rt: &R,
    arena: &Arena,
    reader: &mut Hand,
    key: Key,
) -> Result<Option<Ref>, GetError>
    requires reader { IsReadyHandOf arena.now reader.old }
    ensures reader { IsReadyHandOf arena.now reader.new }
    ensures item { IfOk result (λ found. IfSome found (λ item. IsItemRef (view reader.new) item)) }
{
    get(rt, arena, reader, key)
}

/// A reference of the reader's to the key's item. None where it has none, or where a refusal left anything behind.
pub fn hold<R: Wait + Print>(rt: &R, all: &mut Three, key: Key) -> Option<Ref>
    requires ready { AreReadyOf all.old.arena all.old.hand all.old.reader all.old.looker.hand }
    ensures ready { AreReadyOf all.new.arena all.new.hand all.new.reader all.new.looker.hand }
    ensures item { IfSome result (λ item. IsItemRef (view all.new.reader) item) }
{
    if !look_before(&all.arena, &mut all.looker, &all.reader) {
        return None;
    }
    print_call(rt, "get");
    match get_item(rt, &all.arena, &mut all.reader, key) {
        Ok(found) => {
            print_done(rt, "get");
            found
        }
        Err(_) => hold_again(rt, all, key),
    }
}

// A reference of the reader's to the key's item by one more get, once a get was refused.
fn hold_again<R: Wait + Print>(rt: &R, all: &mut Three, key: Key) -> Option<Ref>
    requires ready { AreReadyOf all.old.arena all.old.hand all.old.reader all.old.looker.hand }
    ensures ready { AreReadyOf all.new.arena all.new.hand all.new.reader all.new.looker.hand }
    ensures item { IfSome result (λ item. IsItemRef (view all.new.reader) item) }
{
    print_refused(rt, "get");
    if !left_nothing(&all.arena, &mut all.looker, &all.reader) {
        return None;
    }
    get_key(rt, &all.arena, &mut all.reader, key)
}

// Whether all is as in the snapshot before.
fn left_nothing(arena: &Arena, looker: &mut Looker, reader: &Hand) -> bool
    requires looker { IsReadyHandOf arena.now looker.old.hand }
    ensures looker { IsReadyHandOf arena.now looker.new.hand }
{
    let seen = look_after(arena, looker, reader);
    seen && looker.before.as_slice() == looker.after.as_slice()
}

/// Whether the item has n words from 0 on, and a refusal left nothing behind.
pub fn has_words<R: Print>(rt: &R, all: &mut Three, item: &Ref, len: usize) -> bool
    requires ready { AreReadyOf all.old.arena all.old.hand all.old.reader all.old.looker.hand }
    requires item { IsItemRef (view all.old.reader) item.now }
    ensures ready { AreReadyOf all.new.arena all.new.hand all.new.reader all.new.looker.hand }
    ensures item { IsItemRef (view all.new.reader) item.now }
{
    if !look_before(&all.arena, &mut all.looker, &all.reader) {
        return false;
    }
    print_call(rt, "read");
    if let Some(same) = are_words(all, item, len) {
        print_done(rt, "read");
        return same;
    }
    print_refused(rt, "read");
    if !left_nothing(&all.arena, &mut all.looker, &all.reader) {
        return false;
    }
    are_words(all, item, len) == Some(true)
}

// Whether the item has n words from 0 on. None where reading them is refused.
fn are_words(all: &mut Three, item: &Ref, len: usize) -> Option<bool>
    requires ready { AreReadyOf all.old.arena all.old.hand all.old.reader all.old.looker.hand }
    requires item { IsItemRef (view all.old.reader) item.now }
    ensures ready { AreReadyOf all.new.arena all.new.hand all.new.reader all.new.looker.hand }
    ensures item { IsItemRef (view all.new.reader) item.now }
{
    match read(all.alloc, &all.arena, &mut all.reader, item) {
        Ok(words) => Some(all.looker.words.get(..len) == Some(words.as_slice())),
        Err(_) => None,
    }
}

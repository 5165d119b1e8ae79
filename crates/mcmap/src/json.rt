//! A map as JSON: an object in a line.
ghost use Rattle.std.specs.Prelude.{◌≡◌, ◌++◌, IfOk, OnOk, codes, map, string_bytes};
ghost use Rattle.serde_json.specs.View.{members_view, view};
ghost use Rattle.serde_json.specs.Written.{compact_text};
ghost use Rattle.mcmap.specs.Json.{
  blocker_json,
  class_json,
  number_json,
  pairs_json,
  entry_json,
  hang_json,
  front_members,
  map_json,
  map_members,
  move_members,
  moving_json,
  owner_json,
  page_members,
  row_json,
  totals_json,
  with_members,
};

use crate::fault::Fault;
use mc_map::{Blocker, ClassLine, Entry, Hang, Map, Moving, Owner, Totals};
use serde_json::{Map as Object, Value, put};
use std::alloc::{AllocError, Global};

/// Adds a map as a line of JSON. `line` is that of its mark, or 0 at the end.
pub fn write_json(alloc: Global, map: &Map, line: u64, text: &mut String) -> Result<(), Fault>
    ensures json { OnOk result (string_bytes text.new ≡ string_bytes text.old
        ++ (compact_text (map_json line map.now) ++ codes "\n")) }
{
    let value = map_value(alloc, map, line)?;
    let written = value.to_string(alloc);
    drop(value);
    text.push_str(written?.as_str())?;
    text.push_str("\n")?;
    Ok(())
}

/// The map.
fn map_value(alloc: Global, map: &Map, line: u64) -> Result<Value, AllocError>
    ensures { IfOk result (λ value. view value ≡ map_json line map.now) }
{
    let mut object = Object::new(alloc);
    let built = put_map(alloc, map, line, &mut object);
    match built {
        Ok(()) => Ok(Value::Object(object)),
        Err(full) => Err(full),
    }
}

/// Puts what a map has into an object.
fn put_map(
    alloc: Global,
    map: &Map,
    line: u64,
    object: &mut Object<String, Value>,
) -> Result<(), AllocError>
    ensures { OnOk result (members_view object.new.entries
        ≡ with_members (members_view object.old.entries) (map_members line map.now)) }
{
    put_front(alloc, map, line, object)?;
    put_pages(alloc, map, object)?;
    put_moves(alloc, map, object)
}

/// Puts the line, how many commands are done, the sizes of a page, and how many the limit has.
fn put_front(
    alloc: Global,
    map: &Map,
    line: u64,
    object: &mut Object<String, Value>,
) -> Result<(), AllocError>
    ensures { OnOk result (members_view object.new.entries
        ≡ with_members (members_view object.old.entries) (front_members line map.now)) }
{
    put(object, alloc, "line", Value::from(line))?;
    put(object, alloc, "done", Value::from(map.done))?;
    put(object, alloc, "page", Value::from(map.page))?;
    put(object, alloc, "within", Value::from(map.within))?;
    put(object, alloc, "chunks", Value::from(map.chunks))
}

/// Puts who owns the pages, the classes, and the numbers of the whole.
fn put_pages(alloc: Global, map: &Map, object: &mut Object<String, Value>) -> Result<(), AllocError>
    ensures { OnOk result (members_view object.new.entries
        ≡ with_members (members_view object.old.entries) (page_members map.now)) }
{
    put(object, alloc, "owners", owners_value(alloc, &map.owners)?)?;
    put(object, alloc, "pool", numbers_value(alloc, &map.pool)?)?;
    put(
        object,
        alloc,
        "classes",
        classes_value(alloc, &map.classes)?,
    )?;
    put(object, alloc, "totals", totals_value(alloc, map.totals)?)
}

/// Puts how pages changed hands, which one moves, and what holds it up.
fn put_moves(alloc: Global, map: &Map, object: &mut Object<String, Value>) -> Result<(), AllocError>
    ensures { OnOk result (members_view object.new.entries
        ≡ with_members (members_view object.old.entries) (move_members map.now)) }
{
    put(object, alloc, "ledger", ledger_value(alloc, &map.ledger)?)?;
    put(object, alloc, "moving", moving_value(alloc, map.moving)?)?;
    put(object, alloc, "blockers", hang_value(alloc, &map.hang)?)
}

/// A JSON object of these numbers, by their names.
fn pairs_value(alloc: Global, pairs: &[(&str, u64)]) -> Result<Value, AllocError>
    ensures { IfOk result (λ value. view value ≡ pairs_json
        (map (λ pair. (pair.0.now, pair.1)) pairs.now)) }
{
    let mut object = Object::new(alloc);
    for (name, number) in pairs {
        put(&mut object, alloc, name, Value::from(*number))?;
    }
    Ok(Value::Object(object))
}

/// A JSON array of these numbers.
fn numbers_value(alloc: Global, numbers: &[u64]) -> Result<Value, AllocError>
    ensures { IfOk result (λ value. view value ≡ row_json number_json numbers.now) }
{
    let mut list = Vec::new(alloc);
    for number in numbers {
        list.push(Value::from(*number))?;
    }
    Ok(Value::Array(list))
}

/// Who owns each page: null where nobody was given it, 0 for the pool, or a class; two of these where it moves.
fn owners_value(alloc: Global, owners: &[Owner]) -> Result<Value, AllocError>
    ensures { IfOk result (λ value. view value ≡ row_json owner_json owners.now) }
{
    let mut list = Vec::new(alloc);
    for owner in owners {
        list.push(owner_value(alloc, *owner)?)?;
    }
    Ok(Value::Array(list))
}

/// The owner of a page as JSON.
fn owner_value(alloc: Global, owner: Owner) -> Result<Value, AllocError>
    ensures { IfOk result (λ value. view value ≡ owner_json owner) }
{
    match owner {
        Owner::Untouched => Ok(Value::Null),
        Owner::Pool => Ok(Value::from(0u64)),
        Owner::Class(class) => Ok(Value::from(class)),
        Owner::Moving { src, dst } => numbers_value(alloc, &[src, dst]),
    }
}

/// The lines of the classes.
fn classes_value(alloc: Global, lines: &[ClassLine]) -> Result<Value, AllocError>
    ensures { IfOk result (λ value. view value ≡ row_json class_json lines.now) }
{
    let mut list = Vec::new(alloc);
    for line in lines {
        list.push(class_value(alloc, line)?)?;
    }
    Ok(Value::Array(list))
}

/// The line of a class.
fn class_value(alloc: Global, line: &ClassLine) -> Result<Value, AllocError>
    ensures { IfOk result (λ value. view value ≡ class_json line.now) }
{
    let pairs = [
        ("class", line.class),
        ("size", line.size),
        ("per_page", line.per_page),
        ("pages", line.pages),
        ("chunks", line.chunks),
        ("linked", line.linked),
        ("held", line.held),
        ("unlinked", line.unlinked),
        ("dead", line.dead),
        ("free", line.free),
        ("cleared", line.cleared),
        ("asked", line.asked),
        ("bytes", line.bytes),
        ("evictions", line.evictions),
    ];
    pairs_value(alloc, &pairs)
}

/// The numbers of the whole.
fn totals_value(alloc: Global, totals: Totals) -> Result<Value, AllocError>
    ensures { IfOk result (λ value. view value ≡ totals_json totals) }
{
    let pairs = [
        ("granted", totals.granted),
        ("pool", totals.pool),
        ("moved", totals.moved),
        ("rescues", totals.rescues),
        ("evictions_nomem", totals.evictions_nomem),
        ("busy", totals.busy),
    ];
    pairs_value(alloc, &pairs)
}

/// How pages changed hands.
fn ledger_value(alloc: Global, ledger: &[Entry]) -> Result<Value, AllocError>
    ensures { IfOk result (λ value. view value ≡ row_json entry_json ledger.now) }
{
    let mut list = Vec::new(alloc);
    for entry in ledger {
        list.push(entry_value(alloc, *entry)?)?;
    }
    Ok(Value::Array(list))
}

/// How a page changed hands: what was done to it, and with which classes, of which 0 is the pool.
fn entry_value(alloc: Global, entry: Entry) -> Result<Value, AllocError>
    ensures { IfOk result (λ value. view value ≡ entry_json entry) }
{
    match entry {
        Entry::Granted(page, class, grace) => granted_value(alloc, page, class, grace),
        Entry::Taken(page, class) => pairs_value(alloc, &[("taken", page), ("class", class)]),
        Entry::Began(page, src, dst) => {
            pairs_value(alloc, &[("began", page), ("src", src), ("dst", dst)])
        }
        Entry::Ended(page, dst) => pairs_value(alloc, &[("ended", page), ("dst", dst)]),
    }
}

/// An untouched page that was given to a class, and whether that was beyond the limit.
fn granted_value(alloc: Global, page: u64, class: u64, grace: bool) -> Result<Value, AllocError>
    ensures { IfOk result (λ value. view value ≡ entry_json (Entry.Granted page class grace)) }
{
    let mut object = Object::new(alloc);
    put(&mut object, alloc, "granted", Value::from(page))?;
    put(&mut object, alloc, "class", Value::from(class))?;
    put(&mut object, alloc, "grace", Value::from(grace))?;
    Ok(Value::Object(object))
}

/// The page on the move, or null.
fn moving_value(alloc: Global, moving: Option<Moving>) -> Result<Value, AllocError>
    ensures { IfOk result (λ value. view value ≡ moving_json moving) }
{
    match moving {
        Some(moving) => pairs_value(
            alloc,
            &[
                ("page", moving.page),
                ("src", moving.src),
                ("dst", moving.dst),
                ("at", moving.at),
                ("busy", moving.busy),
            ],
        ),
        None => Ok(Value::Null),
    }
}

/// The chunks that hold a move up. It is null where no page moves, or where to find them takes too many looks.
fn hang_value(alloc: Global, hang: &Hang) -> Result<Value, AllocError>
    ensures { IfOk result (λ value. view value ≡ hang_json hang.now) }
{
    match hang {
        Hang::Idle | Hang::Unknown => Ok(Value::Null),
        Hang::Found(blockers) => blockers_value(alloc, blockers),
    }
}

/// The chunks that hold a move up.
fn blockers_value(alloc: Global, blockers: &[Blocker]) -> Result<Value, AllocError>
    ensures { IfOk result (λ value. view value ≡ row_json blocker_json blockers.now) }
{
    let mut list = Vec::new(alloc);
    for blocker in blockers {
        list.push(blocker_value(alloc, blocker)?)?;
    }
    Ok(Value::Array(list))
}

/// A chunk that holds a move up.
fn blocker_value(alloc: Global, blocker: &Blocker) -> Result<Value, AllocError>
    ensures { IfOk result (λ value. view value ≡ blocker_json blocker.now) }
{
    let mut object = Object::new(alloc);
    put(&mut object, alloc, "chunk", Value::from(blocker.chunk))?;
    put(&mut object, alloc, "key", Value::from(blocker.key))?;
    put(&mut object, alloc, "linked", Value::from(blocker.linked))?;
    put(
        &mut object,
        alloc,
        "workers",
        numbers_value(alloc, &blocker.workers)?,
    )?;
    Ok(Value::Object(object))
}

//! How many items each class has, before and after some are deleted.
ghost use Rattle.mc_cache.specs.Belonging.{BelongsTo};

use super::made::with_one_worker;
use example_calls::cache::items_of_class;
use mc_cache::{Cache, ClassItems, Worker};
use std::alloc::Global;
use std::process::Abort;
use std::sync::Wait;
use std::test::Fail;

/// A value whose item takes 88 bytes beside a key of 8: it goes to the second class, of 128.
const SHORT: [u8; 40] = [7; 40];

/// A value whose item takes 448 bytes beside a key of 8: it goes to the fourth class, of 1,024.
const LONG: [u8; 400] = [9; 400];

/// Stores the value under the keys of the numbers from the first one to below the end.
fn set_each<R: Wait>(rt: &R, cache: &Cache, worker: &mut Worker, first: u64, end: u64, value: &[u8])
    requires { BelongsTo cache.now worker.old }
    ensures { BelongsTo cache.now worker.new }
{
    for number in first..end {
        let _stored = worker.set(rt, cache, &number.to_le_bytes(), value);
    }
}

/// Deletes the keys of the numbers from the first one to below the end.
fn delete_each<R: Wait>(rt: &R, cache: &Cache, worker: &mut Worker, first: u64, end: u64)
    requires { BelongsTo cache.now worker.old }
    ensures { BelongsTo cache.now worker.new }
{
    for number in first..end {
        let _deleted = worker.delete(rt, cache, &number.to_le_bytes());
    }
}

/// The row of a class with n items of this many bytes in all.
fn row_of(items: u64, bytes: u64) -> Option<ClassItems> {
    Some(ClassItems { items, bytes })
}

/// The class has this row, or the cache has no such class.
fn assert_row<R: Abort + Wait>(
    rt: &R,
    alloc: Global,
    cache: &Cache,
    worker: &mut Worker,
    class: u64,
    wanted: Option<ClassItems>,
) -> Result<(), Fail>
    requires { BelongsTo cache.now worker.old }
    ensures { BelongsTo cache.now worker.new }
{
    let found = items_of_class(rt, alloc, cache, worker, class)?;
    assert!(rt; found == wanted, "the class has another row");
    Ok(())
}

/// The second class and the fourth have these rows, and no other class has any item.
fn assert_rows<R: Abort + Wait>(
    rt: &R,
    alloc: Global,
    cache: &Cache,
    worker: &mut Worker,
    second: Option<ClassItems>,
    fourth: Option<ClassItems>,
) -> Result<(), Fail>
    requires { BelongsTo cache.now worker.old }
    ensures { BelongsTo cache.now worker.new }
{
    assert_row(rt, alloc, cache, worker, 0, None)?;
    assert_row(rt, alloc, cache, worker, 1, row_of(0, 0))?;
    assert_row(rt, alloc, cache, worker, 2, second)?;
    assert_row(rt, alloc, cache, worker, 3, row_of(0, 0))?;
    assert_row(rt, alloc, cache, worker, 4, fourth)?;
    assert_row(rt, alloc, cache, worker, 5, None)
}

/// Counts the items of each class before and after some are stored and deleted.
fn count_items<R: Abort + Wait>(
    rt: &R,
    alloc: Global,
    cache: &Cache,
    worker: &mut Worker,
) -> Result<(), Fail>
    requires { BelongsTo cache.now worker.old }
{
    let none = row_of(0, 0);
    assert_rows(rt, alloc, cache, worker, none, none)?;
    set_each(rt, cache, worker, 0, 30, &SHORT);
    set_each(rt, cache, worker, 100, 105, &LONG);
    let (short, long) = (row_of(30, 30 * 48), row_of(5, 5 * 408));
    assert_rows(rt, alloc, cache, worker, short, long)?;
    delete_each(rt, cache, worker, 3, 13);
    delete_each(rt, cache, worker, 101, 103);
    let (short, long) = (row_of(20, 20 * 48), row_of(3, 3 * 408));
    assert_rows(rt, alloc, cache, worker, short, long)
}

/// Thirty short values and five long ones over two shards, of which ten and two are deleted: each number is that of keys and values.
#[test]
fn items_are_counted_by_class(rt: HostRuntime) -> Result<(), Fail> {
    let (cache, mut worker, _tender) = with_one_worker(&rt, rt.alloc(), 2)?;
    count_items(&rt, rt.alloc(), &cache, &mut worker)
}

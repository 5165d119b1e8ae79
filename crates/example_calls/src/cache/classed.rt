//! How many items a cache has of one class.
ghost use Rattle.std.specs.Prelude.{◌≡◌, IfOk, IfSome, None, Ok};
ghost use Rattle.mc_cache.specs.Belonging.{BelongsTo};
ghost use Rattle.example_calls.specs.Classed.{IsRowOfClass, LacksClassNumber};

use mc_cache::{Cache, ClassItems, Worker};
use mc_classes::ClassId;
use mc_memory::Refused;
use std::alloc::Global;
use std::sync::Wait;

/// Returns how many items of the class the worker found in the cache, and how many bytes of keys and values they have. None where the cache
/// has no class of this number.
pub fn items_of_class<R: Wait>(
    rt: &R,
    alloc: Global,
    cache: &Cache,
    worker: &mut Worker,
    class: ClassId,
) -> Result<Option<ClassItems>, Refused>
    requires { BelongsTo cache.now worker.old }
    ensures belongs { BelongsTo cache.now worker.new }
    ensures row { IfOk result (λ found. IfSome found (λ row.
        IsRowOfClass cache.now class row worker.old worker.new)) }
    ensures none { result ≡ Ok None → LacksClassNumber cache.now class }
{
    let rows = worker.class_items(rt, alloc, cache)?;
    if class == 0 || class > rows.len() as u64 {
        return Ok(None);
    }
    Ok(Some(rows[class as usize - 1]))
}

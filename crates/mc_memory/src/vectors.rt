//! Vectors that grow. Each call is the vector's own, and its contract as far as callers need it.
ghost use Rattle.std.specs.Prelude.{◌≡◌, ◌≤◌, ◌<◌, ◌+◌, ◌-◌, ◌++◌, ◌∷◌, [], if◌then◌else◌, IfOk, OnOk, OnErr, IsOk, insert, is_ok, length, take, replicate, vec_len, vec_capacity};

use crate::refused::Refused;
use std::alloc::Global;

/// An empty vector with room for n elements.
pub fn with_capacity<T: Drop>(alloc: Global, capacity: usize) -> Result<Vec<T>, Refused>
    ensures items { IfOk result (λ list. list.items ≡ []) }
    ensures len { IfOk result (λ list. vec_len list ≡ 0) }
    ensures capacity { IfOk result (λ list. capacity ≤ vec_capacity list) }
    ensures succeeds { capacity ≡ 0 → IsOk result }
{
    Vec::with_capacity(alloc, capacity).map_err(|_| Refused::now())
}

/// Room for n more elements. The elements stay, whatever the answer.
pub fn reserve<T: Drop>(list: &mut Vec<T>, additional: usize) -> Result<(), Refused>
    ensures items { list.new.items ≡ list.old.items }
    ensures len { vec_len list.new ≡ vec_len list.old }
    ensures ok { OnOk result (vec_len list.new + additional ≤ vec_capacity list.new) }
    ensures capacity { vec_capacity list.old ≤ vec_capacity list.new }
    ensures succeeds { vec_len list.old + additional ≤ vec_capacity list.old → IsOk result }
    ensures full { OnErr result (vec_capacity list.old < vec_len list.old + additional) }
{
    list.reserve(additional).map_err(|_| Refused::now())
}

/// The value behind the last element. Where there is no room, the elements stay and the value is dropped.
pub fn push<T: Drop>(list: &mut Vec<T>, value: T) -> Result<(), Refused>
    ensures items { list.new.items ≡ (if is_ok result then list.old.items
        ++ value ∷ [] else list.old.items) }
    ensures len { vec_len list.new
        ≡ (if is_ok result then vec_len list.old + 1 else vec_len list.old) }
    ensures capacity { vec_capacity list.old ≤ vec_capacity list.new }
    ensures succeeds { vec_len list.old < vec_capacity list.old → IsOk result }
    ensures full { OnErr result (vec_capacity list.old ≤ vec_len list.old) }
{
    list.push(value).map_err(|_| Refused::now())
}

/// The value at this place, and those behind it one place further. Where there is no room, the elements stay and the value is dropped.
pub fn insert<T: Drop>(list: &mut Vec<T>, index: usize, value: T) -> Result<(), Refused>
    requires { index ≤ vec_len list.old }
    ensures items { list.new.items
        ≡ (if is_ok result then insert list.old.items index value else list.old.items) }
    ensures len { vec_len list.new
        ≡ (if is_ok result then vec_len list.old + 1 else vec_len list.old) }
    ensures capacity { vec_capacity list.old ≤ vec_capacity list.new }
    ensures succeeds { vec_len list.old < vec_capacity list.old → IsOk result }
    ensures full { OnErr result (vec_capacity list.old ≤ vec_len list.old) }
{
    list.insert(index, value).map_err(|_| Refused::now())
}

/// A vector with `count` elements: its own first ones, and behind them the value. Where there is no room, the elements stay.
pub fn resize<T: Copy>(list: &mut Vec<T>, count: usize, value: T) -> Result<(), Refused>
    ensures items { list.new.items ≡ (if is_ok result then take count list.old.items
        ++ replicate (count - vec_len list.old) value else list.old.items) }
    ensures len { vec_len list.new ≡ (if is_ok result then count else vec_len list.old) }
    ensures capacity { vec_capacity list.old ≤ vec_capacity list.new }
    ensures succeeds { count ≤ vec_capacity list.old → IsOk result }
    ensures full { OnErr result (vec_capacity list.old < count) }
{
    list.resize(count, value).map_err(|_| Refused::now())
}

/// The values behind the last element. Where there is no room, the elements stay.
pub fn extend_from_slice<T: Copy>(list: &mut Vec<T>, values: &[T]) -> Result<(), Refused>
    ensures items { list.new.items ≡ (if is_ok result then list.old.items
        ++ values.now else list.old.items) }
    ensures len { vec_len list.new
        ≡ (if is_ok result then vec_len list.old + length values.now else vec_len list.old) }
    ensures capacity { vec_capacity list.old ≤ vec_capacity list.new }
    ensures succeeds { vec_len list.old + length values.now ≤ vec_capacity list.old → IsOk result }
    ensures full { OnErr result (vec_capacity list.old < vec_len list.old + length values.now) }
{
    list.extend_from_slice(values).map_err(|_| Refused::now())
}

/// A vector of these values.
pub fn from_slice<T: Copy>(alloc: Global, values: &[T]) -> Result<Vec<T>, Refused>
    ensures items { IfOk result (λ list. list.items ≡ values.now) }
    ensures len { IfOk result (λ list. vec_len list ≡ length values.now) }
{
    Vec::from_slice(alloc, values).map_err(|_| Refused::now())
}

/// A vector of n copies of a value.
pub fn filled<T: Copy>(alloc: Global, value: T, count: usize) -> Result<Vec<T>, Refused>
    ensures items { IfOk result (λ list. list.items ≡ replicate count value) }
    ensures len { IfOk result (λ list. vec_len list ≡ count) }
{
    let mut list = Vec::new(alloc);
    resize(&mut list, count, value)?;
    Ok(list)
}

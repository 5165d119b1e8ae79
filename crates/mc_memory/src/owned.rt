//! Boxes: values in a room of their own.
ghost use Rattle.std.specs.Prelude.{◌≡◌, IfOk, box_value};

use crate::refused::Refused;
use std::alloc::Global;

/// The value in a box. Where there is no room it is dropped.
pub fn boxed<T: Drop>(alloc: Global, value: T) -> Result<Box<T>, Refused>
    ensures { IfOk result (λ room. box_value room ≡ value) }
{
    Box::new(alloc, value).map_err(|_| Refused::now())
}

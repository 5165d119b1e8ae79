//! The check by which a test fails with a text.
ghost use Rattle.std.specs.Prelude.{◌≡◌, ◌↔◌, IsOk, true};

use std::test::Fail;

/// Fails where something isn't right, with the text of what was to be so.
pub fn check(is_right: bool, what: &'static str) -> Result<(), Fail>
    ensures { IsOk result ↔ (is_right ≡ true) }
{
    if is_right {
        Ok(())
    } else {
        Err(Fail::new(what))
    }
}

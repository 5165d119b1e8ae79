//! What is stored where a look found an unexpired value, and where it found none.
ghost use Rattle.std.specs.Prelude.{◌≡◌, IfSome, None, Ok, false, true};
ghost use Rattle.mc_expiry.specs.Choosing.{ChoosesNone, ChoosesValue, PutsChosen};

use crate::deadlines::put_timed;
use crate::looking::seen_value;
use mc_memory::Refused;
use mc_stripe::Stamp;

/// A store that depends on whether the key has an unexpired value.
#[derive(Clone, Copy)]
pub enum StoreKind<'a> {
    /// This value, where the key has no unexpired one. (memcached's `add`)
    Add(&'a [u8]),
    /// This value, where the key has an unexpired one. (memcached's `replace`)
    Replace(&'a [u8]),
    /// The unexpired value that the key has. (memcached's `touch`)
    Touch,
}

impl StoreKind<'_> {
    /// Puts what is stored, with this deadline, in the place of the bytes that are there, and returns whether anything is stored. A look
    /// found these stored bytes, if it found a version.
    pub(crate) fn put(
        &self,
        stored: &[u8],
        found: Option<Stamp>,
        time: u32,
        deadline: u32,
        into: &mut Vec<u8>,
    ) -> Result<bool, Refused>
        ensures puts { result ≡ Ok true →
            PutsChosen self.now time deadline found stored.now into.new.items }
        ensures none { result ≡ Ok false → ChoosesNone self.now time found stored.now }
    {
        match self.chosen(stored, found, time) {
            Some(value) => put_timed(into, deadline, value).map(|()| true),
            None => Ok(false),
        }
    }

    // The value that is stored behind a look, if any.
    fn chosen<'a>(&'a self, stored: &'a [u8], found: Option<Stamp>, time: u32) -> Option<&'a [u8]>
        ensures some { IfSome result (λ value.
            ChoosesValue self.now time found stored.now value.now) }
        ensures none { result ≡ None → ChoosesNone self.now time found stored.now }
    {
        match seen_value(stored, found, time) {
            Some(old) => match *self {
                StoreKind::Add(_) => None,
                StoreKind::Replace(value) => Some(value),
                StoreKind::Touch => Some(old),
            },
            None => match *self {
                StoreKind::Add(value) => Some(value),
                StoreKind::Replace(_) | StoreKind::Touch => None,
            },
        }
    }
}

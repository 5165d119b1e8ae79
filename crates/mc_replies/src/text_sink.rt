//! A text in memory as a sink, for what writes its lines to any sink.
ghost use Rattle.std.specs.Prelude.{◌≡◌, ◌<◌, IsSome};

use mc_classes::{Failures, Fault, Sink};
use mc_memory::{Refused, extend_from_slice};
use std::mem;
use std::sync::ledger::Ledger;

/// A text that is put together in memory. A write fails where memory is refused, and is counted; then the sink has the evidence.
#[derive(Drop)]
pub struct TextSink<L: Ledger> {
    text: Vec<u8>,
    refusals: Failures<L>,
    refused: Option<Refused>,
    ghost told: { 0 < refusals → IsSome refused },
}

impl<L: Ledger> TextSink<L> {
    /// Goes on from a text, which is taken out of its place. Nothing was refused yet.
    pub fn take(text: &mut Vec<u8>, refusals: Failures<L>) -> TextSink<L>
        requires { refusals ≡ 0 }
        ensures text { result.text ≡ text.old }
        ensures refusals { result.refusals ≡ refusals }
    {
        let empty = Vec::new(*text.allocator());
        TextSink {
            text: mem::replace(text, empty),
            refusals,
            refused: None,
        }
    }

    /// Puts the text back into its place.
    pub fn put_back(self, text: &mut Vec<u8>)
        ensures text { text.new ≡ self.text }
    {
        let (written, _refused) = self.into_parts();
        *text = written;
    }

    /// Puts the text back into its place, where a write failed, and gives the evidence.
    pub fn into_refusal(self, text: &mut Vec<u8>) -> Refused
        requires { 0 < self.refusals }
        ensures text { text.new ≡ self.text }
    {
        let (written, refused) = self.into_parts();
        *text = written;
        match refused {
            Some(refused) => refused,
            None => unreachable!(),
        }
    }

    /// The text so far, and the evidence where a write failed.
    fn into_parts(self) -> (Vec<u8>, Option<Refused>)
        ensures text { result.0 ≡ self.text }
        ensures records { 0 < self.refusals → IsSome result.1 }
    {
        let TextSink {
            text,
            refusals: _,
            refused,
        } = self;
        (text, refused)
    }
}

impl<L: Ledger> Sink for TextSink<L> {
    ghost use Rattle.std.specs.Prelude.{Some};

    ghost contents = { λ s. Some s.text.items };

    ghost failures = { λ s. s.refusals };

    fn write_all(&mut self, bytes: &[u8]) -> Result<(), Fault> {
        if let Err(refused) = extend_from_slice(&mut self.text, bytes) {
            self.refused = Some(refused);
            self.refusals.add();
            return Err(Fault);
        }
        Ok(())
    }
}

//! A stripe in a slot of the table.
ghost use Rattle.std.specs.Prelude.{◌≡◌, IfOk};
ghost use Rattle.std.specs.Borrow.{Lends, sem};
ghost use Rattle.mc_stripe.specs.contracts.stripe.Stripe.{the_row as stripe_row};
ghost use Rattle.mc_words.specs.contracts.lock.boxed_stripe.BoxedStripe.{the_row as boxed_row};

use crossbeam_utils::CachePadded;
use mc_memory::{Refused, boxed};
use mc_stripe::Stripe;
use std::alloc::Global;
use std::marker::Model;

/// A stripe that contracts see as the stripe itself. In a box it is one word to exchange, and so is what else lies in a slot. It shares no
/// line of the cache with another, so that hands which act on two stripes don't take it from each other.
#[derive(Drop)]
pub struct BoxedStripe {
    stripe: Box<CachePadded<Stripe>>,
}

impl Model for BoxedStripe {
    ghost use Rattle.mc_stripe.specs.StripeState.{ReadyStripe};

    ghost Value = { ReadyStripe };

    ghost use Rattle.crossbeam_utils.specs.Padded.{padded_value};

    ghost view = { λ boxed. padded_value boxed.stripe.value };
}

impl BoxedStripe {
    /// Puts the stripe into a box.
    pub(crate) fn new(alloc: Global, stripe: Stripe) -> Result<BoxedStripe, Refused>
        ensures boxed { IfOk result (λ boxed. boxed ≡ stripe) }
    {
        let stripe = boxed(alloc, CachePadded::new(stripe))?;
        Ok(BoxedStripe { stripe })
    }

    /// The stripe, to be read.
    pub(crate) fn stripe(&self) -> &Stripe
        ensures stripe { result.now ≡ self.now }
    {
        &self.stripe
    }

    /// The stripe, to be changed: what the last call through this leaves.
    pub(crate) fn stripe_mut(&mut self) -> &mut Stripe
        ensures* changed { sem 𝓛 (Lends boxed_row stripe_row self.entry result (λ stripe. stripe)) }
        ensures stripe { result.now ≡ self.old }
    {
        &mut self.stripe
    }
}

//! Tests of the arena that threads share, over its public calls alone; of items in it, over those of `mc_items` and `mc_words`; and of a
//! race for an item step by step, on one thread, over those of `mc_mover`, too: a hand has it again while another one takes it away, in
//! both orders.
#![tactic(auto)]

#[cfg(test)]
mod tests;

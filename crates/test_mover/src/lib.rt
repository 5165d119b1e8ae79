//! Tests of the mover beside calls on items, over the public calls of `mc_mover`, `mc_items` and `mc_words` alone.
#![tactic(auto)]

#[cfg(test)]
mod tests;

//! Tests of the libraries of the serial run, over their public calls alone: classes and what they waste, script, options, streams, watch.
#![tactic(auto)]

#[cfg(test)]
mod tests;

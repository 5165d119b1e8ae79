//! Tests of changes of a cache's values, of counts of its calls, and of values with a deadline, over public calls alone.
#![tactic(auto)]

#[cfg(test)]
mod tests;

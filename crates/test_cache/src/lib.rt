//! Tests of packed bytes, of items of bytes and of a cache of bytes, over public calls alone.
#![tactic(auto)]

#[cfg(test)]
mod tests;

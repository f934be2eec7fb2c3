//! Tests of a desk that several threads share.
#![tactic(auto)]

#[cfg(test)]
mod tests;

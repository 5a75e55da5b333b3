//! Tests of mz_history. They stand in a crate of their own, so that they are proved without it.
#![tactic(auto)]

#[cfg(test)]
mod tests;

//! Tests of the versioned state, over the contracts of the crates below it.
#![tactic(auto)]

#[cfg(test)]
mod tests;

//! Tests of mz_model and mz_delta. They stand in a crate of their own, so that they are proved without them.
#![tactic(auto)]

#[cfg(test)]
mod tests;

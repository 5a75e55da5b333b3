//! Tests of mz_crew. They stand in a crate of their own, so that they are proved without it.
#![tactic(auto)]

#[cfg(test)]
mod gates;
#[cfg(test)]
mod tests;

//! Tests of mz_files. They stand in a crate of their own, so that they are proved without it.
#![tactic(auto)]

#[cfg(test)]
mod tests;

//! The tests of the readers of input files, over small tables: they stand above those crates, so that
//! a test proves none of them again.
#![tactic(auto)]

#[cfg(test)]
mod tests;

//! Tests of the project that input files give. They stand here, since a check of a crate's tests proves the
//! whole crate again.
#![tactic(auto)]

#[cfg(test)]
mod tests;

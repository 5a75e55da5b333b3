//! A caller of mz_store. It stands in a crate of its own, so that it is proved from the store's contracts alone.
#![tactic(auto)]

mod caller;
#[cfg(test)]
mod tests;

pub use caller::{commit_next, visit_threads};

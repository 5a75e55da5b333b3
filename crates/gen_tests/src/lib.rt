//! Tests of a project that is made from a number, by the top call.
#![tactic(auto)]

#[cfg(test)]
mod gates;
#[cfg(test)]
mod making;
#[cfg(test)]
mod played;
#[cfg(test)]
mod replays;
#[cfg(test)]
mod runs;

//! Tests of the parameter file and of the top call, over bytes and answers.
#![tactic(auto)]

#[cfg(test)]
mod folders;
#[cfg(test)]
mod input;
#[cfg(test)]
mod left;
#[cfg(test)]
mod outputs;
#[cfg(test)]
mod parameters;
#[cfg(test)]
mod plain;
#[cfg(test)]
mod targets;
#[cfg(test)]
mod texts;
#[cfg(test)]
mod watchers;
#[cfg(test)]
mod words;

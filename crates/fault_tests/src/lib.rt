//! Tests of the top call against failing calls and damaged input, over shelves in memory.
#![tactic(auto)]

#[cfg(test)]
mod all_files;
#[cfg(test)]
mod cut_amounts;
#[cfg(test)]
mod damaged_numbers;
#[cfg(test)]
mod damaged_parameters;
#[cfg(test)]
mod damaged_tables;
#[cfg(test)]
mod failing_calls;
#[cfg(test)]
mod host;
#[cfg(test)]
mod shelves;
#[cfg(test)]
mod stored_project;

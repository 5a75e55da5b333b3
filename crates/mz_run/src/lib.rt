//! The top call: a project from its files to its plans, and what is said and written of them.
#![tactic(auto)]

mod anneal;
mod arguments;
mod closing;
mod counted;
mod improvement;
mod input_text;
mod job;
mod joined;
mod limit_refusal;
mod lines;
mod opening;
mod output;
mod param_refusal;
mod plan_files;
mod preparation;
mod program;
mod refusal;
mod reports;
mod row_refusal;
mod run_end;
mod run_outputs;
mod runs;
mod status;
mod table_refusal;

pub use job::{Finished, Job};
pub use mz_files::RunTrail;
pub use mz_project::{InputFault, What, Which};
pub use preparation::prepare;
pub use program::marzone;
pub use refusal::fault_text;
pub use status::{Status, code};

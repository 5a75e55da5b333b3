mod names;
mod summaries;
mod turns;

mod holders;
mod moves;
mod places;
mod problems;
mod scores;

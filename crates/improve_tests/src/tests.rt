mod improved;
mod problems;

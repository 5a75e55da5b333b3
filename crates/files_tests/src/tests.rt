mod missing;
mod problems;
mod solutions;
mod sums;

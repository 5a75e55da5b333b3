//! Passes of a store on the three units with a target and boundaries. The random seeds are the least ones whose draws
//! are of the stated units, worked out of the words of Pcg32 by a script of their own.
mod closes;
mod commits;
mod desks;
mod plays;
mod problems;
mod threads;
mod told;

/// The random seed with which both seats' first draws are of neighbours, and the one with which the second seat's first
/// draw is of no neighbour, but of a unit that touches the same target row.
const NEAR: u64 = 6;

const FAR: u64 = 0;

/// The temperature at which small rises are taken, and the one at which none is, in thousandths of a ten-thousandth.
const WARM: u128 = 10_000_000_000;

const COLD: u128 = 1;

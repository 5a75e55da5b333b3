//! The greatest unit of a problem, for which rooms are made.
ghost use Rattle.std.specs.Prelude.{◌≡◌};
ghost use Rattle.mz_delta.specs.Rooms.{greatest_degree, greatest_touched};

use mz_model::Problem;

/// The greatest number of neighbours of a unit.
pub(crate) fn greatest_degree(problem: &Problem) -> u32
    ensures { result ≡ greatest_degree problem.now }
{
    let mut greatest = 0;
    for unit in 0..problem.units() {
        greatest = greatest.max(problem.degree(unit));
    }
    greatest
}

/// The greatest number of target rows that a unit touches.
pub(crate) fn greatest_touched(problem: &Problem) -> u32
    ensures { result ≡ greatest_touched problem.now }
{
    let mut greatest = 0;
    for unit in 0..problem.units() {
        greatest = greatest.max(problem.touched(unit));
    }
    greatest
}

//! The file of boundaries: how long the boundary between two units is.
ghost use Rattle.std.specs.Prelude.{◌≡◌, ◌<◌, ◌≤◌, length, IfOk};
ghost use Rattle.std.specs.List.{All};
ghost use Rattle.mz_num.specs.Limits.{greatest_quantity, most_boundary_rows};
ghost use Rattle.mz_rows.specs.Answer.{Answers, Gives};
ghost use Rattle.mz_bounds.specs.Bounds.{AreFitBounds, bound_rows, bounds_of};

use crate::outer::outer_lengths;
use crate::pair::read_bound;
use mz_num::Items;
use mz_num::limits::MOST_BOUNDARY_ROWS;
use mz_rows::add_pairs;
use mz_tables::{Ids, RowFault, Table};
use std::alloc::Global;

/// The most rows of the file.
const MOST_ROWS: u32 = MOST_BOUNDARY_ROWS as u32;

/// The boundaries of a project, in ten-thousandths.
#[derive(Drop)]
pub struct Bounds {
    /// Two units by place, the lower one first, and the added length of their rows; each pair once,
    /// in order. A pair whose lengths add up to 0 stays.
    pub edges: Items<(u32, u32, u128)>,
    /// The outer length of each unit: the added length of the rows that name it twice.
    pub outer: Items<u128>,
}

/// Reads the boundaries of a table that has the columns of `wants_bounds`, or the first fault of its
/// rows: a row past the 1,000,000th, an id or a length that is no number, an id that isn't known. The
/// rows of a pair, in either order, are added, and lengths are in ten-thousandths.
/// The file is that of the manual of Marxan with Zones 1.0.1, in this project's profile.
pub fn read_bounds(alloc: Global, table: &Table, units: &Ids) -> Result<Bounds, RowFault>
    requires { All (λ row. length row ≡ 3) table.now }
    ensures answer { Answers result (bounds_of units.now table.now) }
    ensures fit { IfOk result (AreFitBounds (length units.now)) }
{
    let mut rows = read_bound_rows(alloc, table, units)?;
    let outer = outer_lengths(alloc, rows.as_slice(), units.len())?;
    rows.retain(|row| row.0 < row.1);
    let edges = add_pairs(alloc, rows)?;
    Ok(Bounds {
        edges: Items::new(edges),
        outer: Items::new(outer),
    })
}

/// Reads the rows, in the order of the file.
fn read_bound_rows(
    alloc: Global,
    table: &Table,
    units: &Ids,
) -> Result<Vec<(u32, u32, u64)>, RowFault>
    // The table.
    requires { All (λ row. length row ≡ 3) table.now }

    // The rows, or the first fault.
    ensures answer { Gives result (λ rows. rows.items) (bound_rows units.now table.now) }

    // What holds of the rows.
    ensures few { IfOk result (λ rows. length rows.items ≤ most_boundary_rows) }
    ensures low { IfOk result (λ rows. All (λ row. row.0 ≤ row.1) rows.items) }
    ensures high { IfOk result (λ rows. All (λ row. row.1 < length units.now) rows.items) }
    ensures small { IfOk result (λ rows. All (λ row. row.2 ≤ greatest_quantity) rows.items) }
{
    let mut rows = Vec::with_capacity(alloc, table.rows().min(MOST_ROWS) as usize)?;
    for row in 0..table.rows() {
        if row >= MOST_ROWS {
            return Err(RowFault::TooMany(table.line(row)));
        }
        let bound = read_bound(table, row, units)?;
        rows.push(bound)?;
    }
    Ok(rows)
}

//! The lengths of boundaries and their terms under the greatest rate, and their limits.
ghost use Rattle.std.specs.Prelude.{◌≡◌, ◌*◌, length, slice_index};
ghost use Rattle.std.specs.List.{list_any};
ghost use Rattle.mz_num.specs.Limits.{million};
ghost use Rattle.mz_num.specs.Round.{round};
ghost use Rattle.mz_num.specs.Places.{greatest_below};
ghost use Rattle.mz_project.specs.Limited.{Limited};
ghost use Rattle.mz_project.specs.Limits.{is_above, lengths_are_above, terms_are_above};
ghost use Rattle.mz_project.specs.Lengths.{lengths_of};
ghost use Rattle.mz_project.specs.declared.fault.What.TheVariants as what;

use super::narrow::{narrowed, narrowed_rows};
use crate::fault::{InputFault, ReadFault, What};
use mz_bounds::Bounds;
use mz_num::Items;
use std::alloc::Global;

/// The least number of millionths that rounds to more than the limit.
const ROUNDED_ABOVE: u128 = 1_000_000_000_000_000_000_500_000;

/// The lengths between and round the units, in ten-thousandths.
#[derive(Drop)]
pub(crate) struct Lengths {
    pub(crate) edges: Items<(u32, u32, u64)>,
    pub(crate) outer: Items<u64>,
}

/// The lengths in 64 bits, unless one is above the limit.
pub(crate) fn limited_lengths(alloc: Global, bounds: &Bounds) -> Result<Lengths, ReadFault>
    ensures { Limited what.Boundary (lengths_are_above bounds.now) (lengths_of bounds.now) result }
{
    let Some(edges) = narrowed_rows(alloc, bounds.edges.as_slice())? else {
        return Err(ReadFault::Input(InputFault::Sum(What::Boundary)));
    };
    let Some(outer) = narrowed(alloc, bounds.outer.as_slice())? else {
        return Err(ReadFault::Input(InputFault::Sum(What::Boundary)));
    };
    Ok(Lengths {
        edges: Items::new(edges),
        outer: Items::new(outer),
    })
}

/// Nothing, unless the term of a length under the greatest rate is above the limit.
pub(crate) fn limited_terms(lengths: &Lengths, rates: &[u64]) -> Result<(), ReadFault>
    ensures { Limited what.Edge (terms_are_above rates.now lengths.now.edges lengths.now.outer) tt result }
{
    let rate = greatest_rate(rates);
    if some_edge_is_above(lengths.edges.as_slice(), rate)
        || some_outer_is_above(lengths.outer.as_slice(), rate)
    {
        return Err(ReadFault::Input(InputFault::Sum(What::Edge)));
    }
    Ok(())
}

fn greatest_rate(rates: &[u64]) -> u64
    ensures { result ≡ greatest_below (length rates.now) (slice_index rates.now) }
{
    let mut greatest = 0;
    for place in 0..rates.len() {
        greatest = greatest.max(rates[place]);
    }
    greatest
}

fn some_edge_is_above(edges: &[(u32, u32, u64)], rate: u64) -> bool
    ensures { result ≡ list_any (λ edge. is_above (round (edge.2 * rate) million)) edges.now }
{
    edges.iter().any(|edge| term_is_above(edge.2, rate))
}

fn some_outer_is_above(lengths: &[u64], rate: u64) -> bool
    ensures { result ≡ list_any (λ length. is_above (round (length * rate) million)) lengths.now }
{
    lengths.iter().any(|length| term_is_above(*length, rate))
}

/// Whether the rounded term of a length is above the limit.
fn term_is_above(length: u64, rate: u64) -> bool
    ensures { result ≡ is_above (round (length * rate) million) }
{
    u128::from(length) * u128::from(rate) >= ROUNDED_ABOVE
}

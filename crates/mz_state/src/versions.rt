//! The greatest version of a unit's items.
ghost use Rattle.std.specs.Prelude.{◌≡◌, ◌<◌, length, max, slice_index};
ghost use Rattle.std.specs.List.{All};
ghost use Rattle.mz_state.specs.Versions.{greatest_by, position_past};

use mz_model::{Neighbour, Touch};

/// The greater of two versions.
#[inline]
pub(crate) fn greater(one: u32, other: u32) -> u32
    ensures { result ≡ max one other }
{
    one.max(other)
}

/// The greatest version of the units of these neighbours.
pub(crate) fn greatest_of_units(versions: &[u32], neighbours: &[Neighbour]) -> u32
    requires { All (λ neighbour. neighbour.unit < length versions.now) neighbours.now }
    ensures { result ≡ greatest_by (λ neighbour. slice_index versions.now neighbour.unit) neighbours.now }
{
    let mut greatest = 0;
    for neighbour in neighbours {
        greatest = greater(greatest, versions[neighbour.unit as usize]);
    }
    greatest
}

/// The greatest version of these target rows.
pub(crate) fn greatest_of_rows(versions: &[u32], touches: &[Touch]) -> u32
    requires { All (λ touch. touch.row < length versions.now) touches.now }
    ensures { result ≡ greatest_by (λ touch. slice_index versions.now touch.row) touches.now }
{
    let mut greatest = 0;
    for touch in touches {
        greatest = greater(greatest, versions[touch.row as usize]);
    }
    greatest
}

/// The position to which a version reaches, where it reaches past the front.
pub(crate) fn position_past(front: u32, version: u32) -> Option<u32>
    ensures { result ≡ position_past front version }
{
    if front < version {
        Some(version - 1)
    } else {
        None
    }
}

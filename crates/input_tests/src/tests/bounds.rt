//! The files of boundaries and of zone boundary costs, and the rates.
ghost use Rattle.std.specs.Prelude.{◌≡◌, ◌≤◌, length, IfOk};
ghost use Rattle.std.specs.List.{All};
ghost use Rattle.mz_num.specs.Limits.{greatest_quantity};

use super::{Refusal, is_given, small_table, three_ids, two_ids};
use mz_bounds::{Bounds, rates, read_bounds, read_zone_bounds, wants_bounds, wants_zone_bounds};
use mz_num::{Mic6, NoMemory, NumFault};
use mz_tables::{RowFault, Table};
use std::alloc::Global;

fn bound_table(alloc: Global, bytes: &[u8]) -> Result<Table, Refusal>
    ensures { IfOk result (λ table. All (λ row. length row ≡ 3) table) }
{
    let wants = wants_bounds(alloc)?;
    small_table(alloc, bytes, &wants)
}

/// The boundaries of three units.
fn bounds_of(alloc: Global, table: &Table) -> Result<Bounds, Refusal>
    requires { All (λ row. length row ≡ 3) table.now }
{
    let units = three_ids(alloc)?;
    Ok(read_bounds(alloc, table, &units)?)
}

fn bounds_in(alloc: Global, bytes: &[u8]) -> Result<Bounds, Refusal> {
    let table = bound_table(alloc, bytes)?;
    bounds_of(alloc, &table)
}

/// The only edge.
fn one_edge(alloc: Global, bytes: &[u8]) -> Result<Option<(u32, u32, u128)>, Refusal> {
    let bounds = bounds_in(alloc, bytes)?;
    Ok(match bounds.edges.as_slice() {
        [edge] => Some(*edge),
        _ => None,
    })
}

/// The lengths of two edges.
fn two_lengths(alloc: Global, bytes: &[u8]) -> Result<Option<(u128, u128)>, Refusal> {
    let bounds = bounds_in(alloc, bytes)?;
    Ok(match bounds.edges.as_slice() {
        [first, second] => Some((first.2, second.2)),
        _ => None,
    })
}

/// The outer lengths of the three units.
fn outer(alloc: Global, bytes: &[u8]) -> Result<Option<(u128, u128, u128)>, Refusal> {
    let bounds = bounds_in(alloc, bytes)?;
    Ok(match bounds.outer.as_slice() {
        [first, second, third] => Some((*first, *second, *third)),
        _ => None,
    })
}

fn cost_table(alloc: Global, bytes: &[u8]) -> Result<Table, Refusal>
    ensures { IfOk result (λ table. All (λ row. length row ≡ 3) table) }
{
    let wants = wants_zone_bounds(alloc)?;
    small_table(alloc, bytes, &wants)
}

/// The costs between two zones.
fn costs_of(alloc: Global, table: &Table) -> Result<Vec<u64>, Refusal>
    requires { All (λ row. length row ≡ 3) table.now }
    ensures { IfOk result (λ costs. All (λ cost. cost ≤ greatest_quantity) costs.items) }
{
    let zones = two_ids(alloc, 1, 2)?;
    Ok(read_zone_bounds(alloc, table, &zones)?)
}

fn costs_in(alloc: Global, bytes: &[u8]) -> Result<Vec<u64>, Refusal>
    ensures { IfOk result (λ costs. All (λ cost. cost ≤ greatest_quantity) costs.items) }
{
    let table = cost_table(alloc, bytes)?;
    costs_of(alloc, &table)
}

/// The costs between two zones, in their order.
fn four_costs(alloc: Global, bytes: &[u8]) -> Result<Option<(u64, u64, u64, u64)>, Refusal> {
    let costs = costs_in(alloc, bytes)?;
    Ok(match costs.as_slice() {
        [first, second, third, fourth] => Some((*first, *second, *third, *fourth)),
        _ => None,
    })
}

fn rates_in(alloc: Global, bytes: &[u8], modifier: Mic6) -> Result<Vec<u128>, Refusal> {
    let costs = costs_in(alloc, bytes)?;
    Ok(rates(alloc, &costs, modifier)?)
}

/// The rates between two zones, in their order.
fn four_rates(
    alloc: Global,
    bytes: &[u8],
    modifier: Mic6,
) -> Result<Option<(u128, u128, u128, u128)>, Refusal> {
    let rates = rates_in(alloc, bytes, modifier)?;
    Ok(match rates.as_slice() {
        [first, second, third, fourth] => Some((*first, *second, *third, *fourth)),
        _ => None,
    })
}

/// The rate of a cost, both in millionths and 1 at most.
fn one_rate(alloc: Global, cost: u64, modifier: u64) -> Result<Option<u128>, NoMemory> {
    if cost > 1_000_000 || modifier > 1_000_000 {
        return Ok(None);
    }
    let rates = rates(alloc, &[cost], Mic6(modifier))?;
    Ok(match rates.as_slice() {
        [rate] => Some(*rate),
        _ => None,
    })
}

fn is_rate(alloc: Global, cost: u64, modifier: u64, rate: u128) -> bool {
    matches!(one_rate(alloc, cost, modifier), Ok(Some(found)) if found == rate)
}

#[test]
fn adds_the_rows_of_a_pair(rt: HostRuntime) {
    let rows: [(&[u8], Result<Option<(u32, u32, u128)>, Refusal>); 6] = [
        (b"id1,id2,boundary\n1,2,3\n2,1,2\n", Ok(Some((0, 1, 50000)))),
        (
            b"id1,id2,boundary\n1,2,5\n2,1,3\n1,1,2\n",
            Ok(Some((0, 1, 80000))),
        ),
        (b"id1,id2,boundary\n3,2,0\n", Ok(Some((1, 2, 0)))),
        (b"id1,id2,boundary\n3,3,1\n", Ok(None)),
        (
            b"id1,id2,boundary\n1,2,5\n1,9,5\n",
            Err(Refusal::Row(RowFault::Unknown(3, 1))),
        ),
        (
            b"id1,id2,boundary\n1,2,x\n9,2,5\n",
            Err(Refusal::Row(RowFault::BadNumber(2, 2, NumFault::NotANumber))),
        ),
    ];
    for (bytes, answer) in rows {
        assert!(rt; is_given(one_edge(rt.alloc(), bytes), answer));
    }
}

#[test]
fn orders_the_pairs(rt: HostRuntime) {
    let bytes = b"id1,id2,boundary\n3,2,1\n1,3,4\n2,3,1.5\n";
    let lengths = two_lengths(rt.alloc(), bytes);
    assert!(rt; matches!(lengths, Ok(Some((40000, 25000)))));
}

#[test]
fn adds_the_rows_of_one_unit(rt: HostRuntime) {
    let bytes = b"id1,id2,boundary\n1,2,5\n1,1,2\n3,3,1\n1,1,0.5\n";
    let outer = outer(rt.alloc(), bytes);
    assert!(rt; matches!(outer, Ok(Some((25000, 0, 10000)))));
}

#[test]
fn takes_a_cost_twice_but_no_other(rt: HostRuntime) {
    let rows: [(&[u8], Result<Option<(u64, u64, u64, u64)>, Refusal>); 5] = [
        (
            b"zoneid1,zoneid2,cost\n1,2,1\n2,1,1\n",
            Ok(Some((0, 1000000, 1000000, 0))),
        ),
        (
            b"zoneid1,zoneid2,cost\n2,2,0.25\n",
            Ok(Some((0, 0, 0, 250000))),
        ),
        (
            b"zoneid1,zoneid2,cost\n1,2,1\n2,1,0.5\n",
            Err(Refusal::Row(RowFault::Repeated(3))),
        ),
        (
            b"zoneid1,zoneid2,cost\n1,2,0\n1,2,1\n",
            Err(Refusal::Row(RowFault::Repeated(3))),
        ),
        (
            b"zoneid1,zoneid2,cost\n3,1,1\n",
            Err(Refusal::Row(RowFault::Unknown(2, 0))),
        ),
    ];
    for (bytes, answer) in rows {
        assert!(rt; is_given(four_costs(rt.alloc(), bytes), answer));
    }
}

#[test]
fn multiplies_and_rounds_the_rates(rt: HostRuntime) {
    let rows: [(u64, u64, u128); 4] = [
        (1_000_000, 500_000, 500_000),
        (1, 500_000, 1),
        (1, 499_999, 0),
        (0, 1_000_000, 0),
    ];
    for (cost, modifier, rate) in rows {
        assert!(rt; is_rate(rt.alloc(), cost, modifier, rate));
    }
}

#[test]
fn rates_a_zone_boundary_row(rt: HostRuntime) {
    let bytes = b"zoneid1,zoneid2,cost\n1,2,0.5\n";
    let rates = four_rates(rt.alloc(), bytes, Mic6(1_000_000));
    assert!(rt; matches!(rates, Ok(Some((0, 500_000, 500_000, 0)))));
}

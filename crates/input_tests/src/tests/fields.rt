//! The fields of rows, and numbers by zone.
ghost use Rattle.std.specs.Prelude.{◌≡◌, length, IfOk};
ghost use Rattle.std.specs.List.{All};

use super::{Refusal, is_given, small_table, two_ids};
use mz_num::{NoMemory, NumFault};
use mz_rows::{id_at, mic6_at, place_at, read_by_zone, ten4_at, text_at};
use mz_tables::{Ids, RowFault, Table, Wants};
use std::alloc::Global;

/// The one column `x`.
fn one_column(alloc: Global) -> Result<Wants, NoMemory>
    ensures { IfOk result (λ wants. length wants ≡ 1) }
{
    let mut wants = Wants::new(alloc)?;
    wants.add(alloc, b"x", b"", false)?;
    Ok(wants)
}

/// The columns `z`, `x` and `n`.
fn three_columns(alloc: Global) -> Result<Wants, NoMemory>
    ensures { IfOk result (λ wants. length wants ≡ 3) }
{
    let mut wants = Wants::new(alloc)?;
    wants.add(alloc, b"z", b"", true)?;
    wants.add(alloc, b"x", b"", true)?;
    wants.add(alloc, b"n", b"", true)?;
    Ok(wants)
}

fn single_table(alloc: Global, bytes: &[u8]) -> Result<Table, Refusal>
    ensures { IfOk result (λ table. All (λ row. length row ≡ 1) table) }
{
    let wants = one_column(alloc)?;
    small_table(alloc, bytes, &wants)
}

fn pair_table(alloc: Global, bytes: &[u8]) -> Result<Table, Refusal>
    ensures { IfOk result (λ table. All (λ row. length row ≡ 3) table) }
{
    let wants = three_columns(alloc)?;
    small_table(alloc, bytes, &wants)
}

/// The numbers of the zones 7 and 3 with the things 5 and 6.
fn numbers_of(alloc: Global, table: &Table) -> Result<Vec<u64>, Refusal>
    requires { All (λ row. length row ≡ 3) table.now }
{
    let zones = two_ids(alloc, 7, 3)?;
    let things = two_ids(alloc, 5, 6)?;
    Ok(read_by_zone(alloc, table, &zones, &things)?)
}

fn numbers_in(alloc: Global, bytes: &[u8]) -> Result<Vec<u64>, Refusal> {
    let table = pair_table(alloc, bytes)?;
    numbers_of(alloc, &table)
}

/// The same numbers, if they are four.
fn four_numbers(alloc: Global, bytes: &[u8]) -> Result<Option<[u64; 4]>, Refusal> {
    let numbers = numbers_in(alloc, bytes)?;
    Ok(match *numbers.as_slice() {
        [a, b, c, d] => Some([a, b, c, d]),
        _ => None,
    })
}

/// What a field reads as: a text's length, an id, ten-thousandths, millionths, and the place of an id
/// among 7 and 3.
type Field = (usize, [Result<u64, RowFault>; 4]);

/// The first field of the first row.
fn field_of(table: &Table, ids: &Ids) -> Option<Field>
    requires { All (λ row. length row ≡ 1) table.now }
{
    if table.rows() == 0 {
        return None;
    }
    let text = text_at(table, 0, 0).len();
    let id = id_at(table, 0, 0).map(u64::from);
    let place = place_at(table, 0, 0, ids).map(u64::from);
    Some((
        text,
        [id, ten4_at(table, 0, 0), mic6_at(table, 0, 0), place],
    ))
}

fn first_field(alloc: Global, bytes: &[u8]) -> Result<Option<Field>, Refusal> {
    let ids = two_ids(alloc, 7, 3)?;
    let table = single_table(alloc, bytes)?;
    Ok(field_of(&table, &ids))
}

#[test]
fn fields_read_as_numbers(rt: HostRuntime) {
    let bad = |fault| Err(RowFault::BadNumber(2, 0, fault));
    let table = [
        ("x\n3\n", 1, [Ok(3), Ok(30_000), Ok(3_000_000), Ok(1)]),
        ("x\n 07 \n", 2, [Ok(7), Ok(70_000), Ok(7_000_000), Ok(0)]),
        (
            "x\n8\n",
            1,
            [
                Ok(8),
                Ok(80_000),
                Ok(8_000_000),
                Err(RowFault::Unknown(2, 0)),
            ],
        ),
        (
            "x\n.5\n",
            2,
            [
                bad(NumFault::NotANumber),
                Ok(5_000),
                Ok(500_000),
                bad(NumFault::NotANumber),
            ],
        ),
        (
            "x\n-1\n",
            2,
            [
                bad(NumFault::Negative),
                bad(NumFault::Negative),
                bad(NumFault::Negative),
                bad(NumFault::Negative),
            ],
        ),
        (
            "y\n1\n",
            0,
            [
                bad(NumFault::Empty),
                bad(NumFault::Empty),
                bad(NumFault::Empty),
                bad(NumFault::Empty),
            ],
        ),
    ];
    for (bytes, text, numbers) in table {
        let read = first_field(rt.alloc(), bytes.as_bytes());
        assert!(rt; is_given(read, Ok(Some((text, numbers)))), "{bytes}");
    }
}

#[test]
fn numbers_stand_by_zone_and_thing(rt: HostRuntime) {
    let table = [
        (
            "z,x,n\n3,5,0.5\n7,6,2\n",
            Ok(Some([0, 2_000_000, 500_000, 0])),
        ),
        (
            "z,x,n\n3,5,1\n3,5,2\n",
            Err(Refusal::Row(RowFault::Repeated(3))),
        ),
        (
            "z,x,n\n7,6,1\n5,6,1\n",
            Err(Refusal::Row(RowFault::Unknown(3, 0))),
        ),
        ("z,x,n\n7,3,1\n", Err(Refusal::Row(RowFault::Unknown(2, 1)))),
        (
            "z,x,n\n7,6,\n",
            Err(Refusal::Row(RowFault::BadNumber(2, 2, NumFault::Empty))),
        ),
    ];
    for (bytes, numbers) in table {
        let read = four_numbers(rt.alloc(), bytes.as_bytes());
        assert!(rt; is_given(read, numbers), "{bytes}");
    }
}

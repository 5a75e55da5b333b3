//! What the readers answer on small tables. Each helper owns one large value and answers a small one, so that
//! the tests' proofs know nothing of what is read.
ghost use Rattle.std.specs.Prelude.{◌≡◌, ◌≤◌, length, IfOk};
ghost use Rattle.std.specs.List.{All};

mod bounds;
mod features;
mod fields;
mod ids;
mod pairs;
mod tables;
mod targets;
mod units;

use mz_num::NoMemory;
use mz_tables::{Ids, RowFault, Table, TableFault, Wants};
use std::alloc::Global;

/// Why a small table isn't read.
#[derive(Clone, Copy, Debug, PartialEq, Eq)]
enum Refusal {
    NoMemory,
    TooLong,
    Table(TableFault),
    Row(RowFault),
}

impl From<NoMemory> for Refusal {
    fn from(_error: NoMemory) -> Refusal {
        Refusal::NoMemory
    }
}

impl From<TableFault> for Refusal {
    fn from(fault: TableFault) -> Refusal {
        Refusal::Table(fault)
    }
}

impl From<RowFault> for Refusal {
    fn from(fault: RowFault) -> Refusal {
        Refusal::Row(fault)
    }
}

/// Whether a table gave this.
fn is_given<T: Copy + PartialEq>(found: Result<T, Refusal>, wanted: Result<T, Refusal>) -> bool {
    found == wanted
}

/// A table of 1,000 bytes at most.
fn small_table(alloc: Global, bytes: &[u8], wants: &Wants) -> Result<Table, Refusal>
    ensures { IfOk result (λ table. All (λ row. length row ≡ length wants.now) table) }
{
    if bytes.len() > 1000 {
        return Err(Refusal::TooLong);
    }
    Ok(Table::read(alloc, bytes, wants)?)
}

fn two_ids(alloc: Global, first: u32, second: u32) -> Result<Ids, NoMemory>
    ensures { IfOk result (λ ids. length ids ≤ 2) }
{
    let mut ids = Ids::new(alloc)?;
    ids.add(alloc, first)?;
    ids.add(alloc, second)?;
    Ok(ids)
}

/// The ids 1, 2 and 3.
fn three_ids(alloc: Global) -> Result<Ids, NoMemory>
    ensures { IfOk result (λ ids. length ids ≤ 3) }
{
    let mut ids = Ids::new(alloc)?;
    ids.add(alloc, 1)?;
    ids.add(alloc, 2)?;
    ids.add(alloc, 3)?;
    Ok(ids)
}

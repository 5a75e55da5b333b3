//! The columns that a table is read for.
ghost use Rattle.std.specs.Prelude.{◌≡◌, ◌<◌, ◌≤◌, ◌++◌, [], ◌∷◌, length, map, OnOk, OnErr, IfOk};

use crate::column::Column;
use mz_num::{Items, NoMemory};
use std::alloc::Global;
use std::marker::Model;

/// A column that a table is read for.
#[derive(Debug, Drop)]
pub struct Want {
    /// The name of its header cell.
    pub name: Items<u8>,
    /// The name that is looked for where no cell has the first; none where it is empty.
    pub other: Items<u8>,
    /// Whether the table is refused without it.
    pub needed: bool,
}

/// The columns that a table is read for, in the order of their places: fewer than 65536.
#[derive(Debug, Drop)]
pub struct Wants {
    wants: Vec<Want>,
}

impl Model for Wants {
    ghost use Rattle.std.specs.Prelude.{List, length, ◌≤◌};
    ghost use Rattle.mz_tables.specs.declared.wants.Want.{Want};

    ghost Value = { List Want };

    ghost view = { λ a. a.wants.items };

    ghost invariant = { λ a. length a.wants.items ≤ 65535 };
}

impl Wants {
    ghost use Rattle.mz_tables.specs.Wants.{want, want_of};

    /// No column yet.
    pub fn new(alloc: Global) -> Result<Wants, NoMemory>
        ensures { IfOk result (λ wants. wants ≡ []) }
    {
        Ok(Wants {
            wants: Vec::new(alloc),
        })
    }

    /// The columns of a file, in their order.
    pub fn of(alloc: Global, columns: &[Column]) -> Result<Wants, NoMemory>
        requires { length columns.now ≤ 65535 }
        ensures { IfOk result (λ wants. wants ≡ map want_of columns.now) }
    {
        let mut wants = Wants::new(alloc)?;
        for column in columns {
            wants.add(
                alloc,
                column.name.as_bytes(),
                column.other.as_bytes(),
                column.needed,
            )?;
        }
        Ok(wants)
    }

    /// Adds a column by its name and its other name, which is none where it is empty. After want
    /// of memory the columns are as before.
    pub fn add(
        &mut self,
        alloc: Global,
        name: &[u8],
        other: &[u8],
        needed: bool,
    ) -> Result<(), NoMemory>
        requires { length self.old < 65535 }
        ensures ok { OnOk result (self.new ≡ self.old ++ want name.now other.now needed ∷ []) }
        ensures err { OnErr result (self.new ≡ self.old) }
    {
        let want = Want {
            name: Items::new(name.to_vec(alloc)?),
            other: Items::new(other.to_vec(alloc)?),
            needed,
        };
        self.wants.push(want)?;
        Ok(())
    }

    pub(crate) fn as_slice(&self) -> &[Want]
        ensures wants { result.now ≡ self.now }
        ensures few { length self.now ≤ 65535 }
    {
        self.wants.as_slice()
    }
}

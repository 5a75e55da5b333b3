//! Distinct ids. The small calls here have no clause, so that the tests' proofs don't work the lists out.
use mz_num::NoMemory;
use mz_rows::add_id;
use mz_tables::{Ids, RowFault};
use std::alloc::Global;
use std::test::Fail;

fn no_ids(alloc: Global) -> Result<Ids, NoMemory> {
    Ids::new(alloc)
}

/// Adds an id, and says whether it is new.
fn add(alloc: Global, ids: &mut Ids, id: u32) -> Result<bool, NoMemory> {
    if ids.len() == u32::MAX {
        return Err(NoMemory);
    }
    ids.add(alloc, id)
}

/// Adds the id of a row.
fn add_row(alloc: Global, ids: &mut Ids, id: u32, line: u32) -> Result<(), RowFault> {
    if ids.len() == u32::MAX {
        return Err(RowFault::NoMemory);
    }
    add_id(alloc, ids, id, line)
}

/// Adds four ids, and says which of them are new.
fn add_four(alloc: Global, ids: &mut Ids, four: [u32; 4]) -> Result<[bool; 4], NoMemory> {
    let [first, second, third, fourth] = four;
    Ok([
        add(alloc, ids, first)?,
        add(alloc, ids, second)?,
        add(alloc, ids, third)?,
        add(alloc, ids, fourth)?,
    ])
}

fn count(ids: &Ids) -> u32 {
    ids.len()
}

fn place(ids: &Ids, id: u32) -> Option<u32> {
    ids.place(id)
}

/// The id at a place.
fn id_at(ids: &Ids, place: u32) -> Option<u32> {
    if place < ids.len() {
        Some(ids.id(place))
    } else {
        None
    }
}

#[test]
fn keeps_distinct_ids_in_their_order(rt: HostRuntime) -> Result<(), Fail> {
    let alloc = rt.alloc();
    let mut ids = no_ids(alloc)?;
    assert!(rt; place(&ids, 7) == None);
    let added = add_four(alloc, &mut ids, [7, 4_294_967_295, 7, 0])?;
    assert!(rt; matches!(added, [true, true, false, true]));
    assert!(rt; count(&ids) == 3);
    let places = [
        (7, Some(0)),
        (4_294_967_295, Some(1)),
        (0, Some(2)),
        (1, None),
    ];
    for (id, found) in places {
        assert!(rt; place(&ids, id) == found, "{id}");
    }
    assert!(rt; id_at(&ids, 0) == Some(7));
    assert!(rt; id_at(&ids, 1) == Some(4_294_967_295));
    assert!(rt; id_at(&ids, 2) == Some(0));
    Ok(())
}

#[test]
fn adds_the_id_of_a_row_once(rt: HostRuntime) -> Result<(), Fail> {
    let alloc = rt.alloc();
    let mut ids = no_ids(alloc)?;
    assert!(rt; matches!(add_row(alloc, &mut ids, 7, 2), Ok(())));
    assert!(rt; matches!(add_row(alloc, &mut ids, 5, 3), Ok(())));
    assert!(rt; place(&ids, 5) == Some(1));
    let again = add_row(alloc, &mut ids, 7, 4);
    assert!(rt; matches!(again, Err(RowFault::Repeated(4))));
    Ok(())
}

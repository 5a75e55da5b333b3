//! Damaged ids and costs of the stored project's units.
use crate::host::Host;
use crate::stored_project::{accepts, refuses};
use std::alloc::{AllocError, Global};
use std::test::Fail;

/// The unit file with this row in the place of its first.
fn units_with(alloc: Global, row: &[&str]) -> Result<Vec<u8>, AllocError> {
    let mut units = Vec::from_slice(alloc, b"id,cost\n")?;
    for part in row {
        units.extend_from_slice(part.as_bytes())?;
    }
    units.extend_from_slice(b"\n2,20\n3,30\n")?;
    Ok(units)
}

/// Whether this text in the place of the first unit's cost is refused so.
fn refuses_cost(rt: &impl Host, cost: &str, why: &str) -> Result<bool, Fail> {
    let alloc = rt.alloc();
    let units = units_with(alloc, &["1,", cost])?;
    let text = format!(in alloc; "units: line 2 bad number in cost 1: {why}")?;
    refuses(rt, "pu.dat", &units, text.as_str())
}

#[test]
fn costs_that_are_no_numbers_are_refused(rt: HostRuntime) -> Result<(), Fail> {
    let table = [
        "+",
        "-",
        ".",
        "e1",
        "1e",
        "1e+",
        "1.2.3",
        "--1",
        "1 0",
        "1\0",
        "0x10",
        "1_0",
        "1'0",
        "NaN",
        "inf",
        "\u{ff11}",
        "1E99999",
        "1E1.5",
        "0000000000000000000000000000000000000000",
        "1234567890123456789012345678901234567890",
    ];
    for cost in table {
        assert!(rt; refuses_cost(&rt, cost, "not a number")?, "{cost:?}");
    }
    Ok(())
}

#[test]
fn costs_out_of_their_range_are_refused(rt: HostRuntime) -> Result<(), Fail> {
    let table = [
        ("", "empty"),
        (" \t ", "empty"),
        ("-1E-9999", "negative"),
        ("-1E9999", "negative"),
        ("1E9999", "too large"),
        ("100000000000000.00005", "too large"),
        ("99999999999999999999999999999999999999", "too large"),
        ("0.0000000000000000000000000000000000001E9999", "too large"),
    ];
    for (cost, why) in table {
        assert!(rt; refuses_cost(&rt, cost, why)?, "{cost:?}");
    }
    Ok(())
}

/// Whether the project with this text in the place of the first unit's cost ends with this line.
fn accepts_cost(rt: &impl Host, cost: &str, last: &str) -> Result<bool, Fail> {
    let units = units_with(rt.alloc(), &["1,", cost])?;
    accepts(rt, "pu.dat", &units, last)
}

#[test]
fn strange_costs_are_taken(rt: HostRuntime) -> Result<(), Fail> {
    let ten = "best 1 score 39.0000\n";
    let table = [
        ("10.", ten),
        ("+1e1", ten),
        ("1000E-2", ten),
        (" \t10 ", ten),
        ("00000000000000000000000000000000000010", ten),
        ("0.0000000000000000000000000000000000001E38", ten),
        ("10.00004999", ten),
        ("10.00005", "best 1 score 39.0001\n"),
    ];
    for (cost, last) in table {
        assert!(rt; accepts_cost(&rt, cost, last)?, "{cost:?}");
    }
    Ok(())
}

/// Whether this text in the place of the first unit's id is refused so.
fn refuses_id(rt: &impl Host, id: &str, text: &str) -> Result<bool, Fail> {
    let units = units_with(rt.alloc(), &[id, ",10"])?;
    refuses(rt, "pu.dat", &units, text)
}

#[test]
fn damaged_ids_are_refused(rt: HostRuntime) -> Result<(), Fail> {
    let large = "units: line 2 bad number in id: too large";
    let table = [
        ("2147483648", large),
        ("4294967296", large),
        ("4294967297", large),
        ("99999999999999999999999999999999999999", large),
        ("", "units: line 2 bad number in id: empty"),
        ("-1", "units: line 2 bad number in id: negative"),
        ("1.0", "units: line 2 bad number in id: not a number"),
        ("1E0", "units: line 2 bad number in id: not a number"),
        ("2", "units: line 3 repeated"),
        ("+02", "units: line 3 repeated"),
        ("0", "amounts: line 2 unknown puid"),
        ("-0", "amounts: line 2 unknown puid"),
        ("2147483647", "amounts: line 2 unknown puid"),
    ];
    for (id, text) in table {
        assert!(rt; refuses_id(&rt, id, text)?, "{id:?}");
    }
    Ok(())
}

#[test]
fn leading_zeros_are_no_other_id(rt: HostRuntime) -> Result<(), Fail> {
    let units = b"id,cost\n+0000000001,10\n2,20\n3,30\n";
    assert!(rt; accepts(&rt, "pu.dat", units, "best 1 score 39.0000\n")?);
    Ok(())
}

//! Damaged parameter files of the stored project.
use crate::host::Host;
use crate::stored_project::{INPUT, accepts, refuses};
use std::alloc::{AllocError, Global};
use std::test::Fail;

/// The parameter file of the project behind these bytes.
fn behind(alloc: Global, bytes: &[u8]) -> Result<Vec<u8>, AllocError> {
    let mut input = Vec::from_slice(alloc, bytes)?;
    input.extend_from_slice(INPUT)?;
    Ok(input)
}

/// Whether the project is refused with this text where its parameter file stands behind these bytes.
fn refuses_behind(rt: &impl Host, bytes: &[u8], text: &str) -> Result<bool, Fail> {
    let input = behind(rt.alloc(), bytes)?;
    refuses(rt, "input.dat", &input, text)
}

/// Whether these bytes before its parameter file leave the project as it is.
fn are_skipped(rt: &impl Host, bytes: &[u8]) -> Result<bool, Fail> {
    let input = behind(rt.alloc(), bytes)?;
    accepts(rt, "input.dat", &input, "best 1 score 39.0000\n")
}

#[test]
fn damaged_lines_are_refused(rt: HostRuntime) -> Result<(), Fail> {
    let table: [(&[u8], &str); 16] = [
        (b"SCENNAME a\xFF\n", "input: SCENNAME bad value"),
        (b"PROP\n", "input: PROP bad value"),
        (b"PROP 0\0\n", "input: PROP bad value"),
        (b"PROP 1E9999\n", "input: PROP out of range"),
        (b"PROP 1E99999\n", "input: PROP bad value"),
        (b"PROP -0.0000001\n", "input: PROP out of range"),
        (b"STARTTEMP 1E9999\n", "input: STARTTEMP out of range"),
        (b"NUMTEMP 0\n", "input: NUMTEMP out of range"),
        (b"NUMREPS 4294967296\n", "input: NUMREPS out of range"),
        (
            b"NUMREPS 99999999999999999999999999999999999999\n",
            "input: NUMREPS out of range",
        ),
        (
            b"NUMREPS 999999999999999999999999999999999999999\n",
            "input: NUMREPS bad value",
        ),
        (b"AVAILABLEZONE 0\n", "input: AVAILABLEZONE out of range"),
        (
            b"AVAILABLEZONE 4294967296\n",
            "input: AVAILABLEZONE out of range",
        ),
        (b"SAVETURNS 256\n", "input: SAVETURNS out of range"),
        (
            b"RUNMODE 18446744073709551620\n",
            "input: RUNMODE out of range",
        ),
        (b"RUNMODE -4\n", "input: RUNMODE left out"),
    ];
    for (line, text) in table {
        assert!(rt; refuses_behind(&rt, line, text)?, "{text}");
    }
    Ok(())
}

#[test]
fn damage_outside_of_keys_is_skipped(rt: HostRuntime) -> Result<(), Fail> {
    let table: [(&str, &[u8]); 7] = [
        ("a byte order mark", b"\xEF\xBB\xBF"),
        ("two marks before a line", b"\xEF\xBB\xBF\xEF\xBB\xBF\n"),
        ("a zero byte before a key", b"\0PROP 5\n"),
        ("bytes that aren't UTF-8", b"\xFF\xFE\n"),
        ("a key with more letters", b"PROPORTION 5\n"),
        ("empty lines", b"\n\r\n \t\r\n"),
        ("a small number", b"PROP 1E-9999\n"),
    ];
    for (what, bytes) in table {
        assert!(rt; are_skipped(&rt, bytes)?, "{what}");
    }
    Ok(())
}

#[test]
fn a_second_byte_order_mark_hides_the_first_key(rt: HostRuntime) -> Result<(), Fail> {
    let marks = b"\xEF\xBB\xBF\xEF\xBB\xBF";
    assert!(rt; refuses_behind(&rt, marks, "input: PUNAME missing")?);
    Ok(())
}

#[test]
fn a_file_without_keys_names_no_units(rt: HostRuntime) -> Result<(), Fail> {
    let table: [&[u8]; 5] = [b"", b"\0\0\0\0", b"\r\r\r", b"PUNAME", b"\xEF\xBB"];
    for bytes in table {
        assert!(rt; refuses(&rt, "input.dat", bytes, "input: PUNAME missing")?);
    }
    Ok(())
}

/// Whether a parameter file of one line of so many letters is refused.
fn refuses_letters(rt: &impl Host, count: usize) -> Result<bool, Fail> {
    let letters = vec![in rt.alloc(); b'a'; count]?;
    refuses(rt, "input.dat", &letters, "input: PUNAME missing")
}

#[test]
fn a_line_of_a_million_letters_is_skipped(rt: HostRuntime) -> Result<(), Fail> {
    assert!(rt; refuses_letters(&rt, 1_000_000)?);
    Ok(())
}

#[test]
fn a_parameter_file_is_no_unit_file(rt: HostRuntime) -> Result<(), Fail> {
    let text = "units: column id missing";
    assert!(rt; refuses(&rt, "input.dat", b"PUNAME input.dat\n", text)?);
    Ok(())
}

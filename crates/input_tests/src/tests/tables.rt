//! Tables.
ghost use Rattle.std.specs.Prelude.{◌≡◌, length, IfOk};
ghost use Rattle.std.specs.List.{All};

use super::{Refusal, is_given, small_table};
use mz_num::NoMemory;
use mz_tables::{Column, Table, TableFault, Wants};
use std::alloc::Global;

const AMOUNTS: &[u8] = b"species,pu,amount\n1,1,2\n1,2,3\n1,3,4\n";

/// The columns of an amount file.
fn amounts(alloc: Global) -> Result<Wants, NoMemory>
    ensures { IfOk result (λ wants. length wants ≡ 3) }
{
    let mut wants = Wants::new(alloc)?;
    wants.add(alloc, b"featureid", b"species", true)?;
    wants.add(alloc, b"puid", b"pu", true)?;
    wants.add(alloc, b"amount", b"", true)?;
    Ok(wants)
}

/// Columns of which only the first is needed.
fn features(alloc: Global) -> Result<Wants, NoMemory>
    ensures { IfOk result (λ wants. length wants ≡ 3) }
{
    let columns = [
        Column {
            name: "id",
            other: "",
            needed: true,
        },
        Column {
            name: "spf",
            other: "fpf",
            needed: false,
        },
        Column {
            name: "name",
            other: "",
            needed: false,
        },
    ];
    Wants::of(alloc, &columns)
}

fn amount_table(alloc: Global, bytes: &[u8]) -> Result<Table, Refusal>
    ensures { IfOk result (λ table. All (λ row. length row ≡ 3) table) }
{
    let wants = amounts(alloc)?;
    small_table(alloc, bytes, &wants)
}

fn feature_table(alloc: Global, bytes: &[u8]) -> Result<Table, Refusal>
    ensures { IfOk result (λ table. All (λ row. length row ≡ 3) table) }
{
    let wants = features(alloc)?;
    small_table(alloc, bytes, &wants)
}

/// The fields of a table of three columns, with a bar behind each, and `-` for a column that isn't there.
fn shown(alloc: Global, table: &Table) -> Result<Vec<u8>, NoMemory>
    requires { All (λ row. length row ≡ 3) table.now }
{
    let mut text = Vec::new(alloc);
    for row in 0..table.rows() {
        for want in 0..3 {
            let field = table.field(row, want).unwrap_or(b"-");
            text.extend_from_slice(field)?;
            text.push(b'|')?;
        }
    }
    Ok(text)
}

/// Whether a table of three columns shows this text.
fn is_text(alloc: Global, table: &Table, text: &[u8]) -> bool
    requires { All (λ row. length row ≡ 3) table.now }
{
    matches!(shown(alloc, table), Ok(found) if found.as_slice() == text)
}

fn shows_amounts(alloc: Global, bytes: &[u8], text: &[u8]) -> bool {
    matches!(amount_table(alloc, bytes), Ok(table) if is_text(alloc, &table, text))
}

fn shows_features(alloc: Global, bytes: &[u8], text: &[u8]) -> bool {
    matches!(feature_table(alloc, bytes), Ok(table) if is_text(alloc, &table, text))
}

/// Whether the bytes are read as amounts, or refused for this fault.
fn amount_fault(alloc: Global, bytes: &[u8]) -> Result<(), Refusal> {
    amount_table(alloc, bytes)?;
    Ok(())
}

/// What is to be said of the first bytes of an amount file.
fn fault_of_cut(n: usize) -> Result<(), Refusal> {
    let fault = match n {
        0 => TableFault::NoHeader,
        1..=6 => TableFault::ColumnMissing(0),
        7..=9 => TableFault::ColumnMissing(1),
        10..=16 => TableFault::ColumnMissing(2),
        19..=21 => TableFault::Uneven(2),
        25..=27 => TableFault::Uneven(3),
        31..=33 => TableFault::Uneven(4),
        _ => return Ok(()),
    };
    Err(Refusal::Table(fault))
}

/// Whether the first bytes of an amount file are read as they are to be.
fn is_cut_well(alloc: Global, n: usize) -> bool {
    match AMOUNTS.get(..n) {
        Some(bytes) => is_given(amount_fault(alloc, bytes), fault_of_cut(n)),
        None => false,
    }
}

#[test]
fn reads_an_amount_file_cut_after_each_byte(rt: HostRuntime) {
    for n in 0..=36 {
        assert!(rt; is_cut_well(rt.alloc(), n), "{n} bytes");
    }
}

#[test]
fn reads_the_fields_of_a_table(rt: HostRuntime) {
    let rows: [(&[u8], &[u8]); 16] = [
        (AMOUNTS, b"1|1|2|1|2|3|1|3|4|"),
        (b"species,pu,amount\n", b""),
        (b"species,pu,amount\n\"1\",\"2\",3\n", b"1|2|3|"),
        (b"species,pu,amount\n\"a\"\"b\",2,3\n", b"a\"b|2|3|"),
        (b"species,pu,amount\n\"a\nb\",2,3\n", b"a\nb|2|3|"),
        (b"species,pu,amount\n\"a,b\",2,3\n", b"a,b|2|3|"),
        (
            b"species\tpu\tamount\r\n1\t2\t3\r\n4\t5\t6\r\n",
            b"1|2|3|4|5|6|",
        ),
        (b"species\tpu\tamount\n1,5\t2\t3\n", b"1,5|2|3|"),
        (b"species,pu,amount\r1,2,3\r", b"1|2|3|"),
        (b"\xEF\xBB\xBFspecies,pu,amount\n1,2,3\n", b"1|2|3|"),
        (
            b"species,pu,amount\n\n1,2,3\n\r\n\n4,5,6\n\n",
            b"1|2|3|4|5|6|",
        ),
        (b"species,pu,amount\n1,2,3", b"1|2|3|"),
        (b" Species ,\tPU,AMOUNT\n 1 ,\t2\t, 3 3 \n", b"1|2|3 3|"),
        (b"note,amount,pu,species\nx,3,2,1\n", b"1|2|3|"),
        (b"species,featureid,pu,amount\n9,1,2,3\n", b"1|2|3|"),
        (b"species,species,pu,amount\n1,9,2,3\n", b"1|2|3|"),
    ];
    for (bytes, text) in rows {
        assert!(rt; shows_amounts(rt.alloc(), bytes, text));
    }
}

#[test]
fn leaves_an_optional_column_out(rt: HostRuntime) {
    let rows: [(&[u8], &[u8]); 4] = [
        (b"id,name\n7,fern\n", b"7|-|fern|"),
        (b"id\n7\n\n8\n", b"7|-|-|8|-|-|"),
        (b"id,fpf\n7,\n", b"7||-|"),
        (b"id,,fpf,spf\n7,x,1,2\n", b"7|2|-|"),
    ];
    for (bytes, text) in rows {
        assert!(rt; shows_features(rt.alloc(), bytes, text));
    }
}

#[test]
fn tells_the_first_fault(rt: HostRuntime) {
    let rows: [(&[u8], TableFault); 9] = [
        (b"", TableFault::NoHeader),
        (b"\r\n\n", TableFault::NoHeader),
        (b"\xEF\xBB\xBF", TableFault::NoHeader),
        (
            b"\xEF\xBB\xBF\xEF\xBB\xBFspecies,pu,amount\n",
            TableFault::ColumnMissing(0),
        ),
        (b"amount,species\n1\n", TableFault::ColumnMissing(1)),
        (
            b"species,pu,amount\n\n1,2,3\n\n1,2\n1\n",
            TableFault::Uneven(3),
        ),
        (b"species,pu,amount\n1,2,3,4\n", TableFault::Uneven(2)),
        (b"species;pu;amount\n", TableFault::ColumnMissing(0)),
        (b"\nspecies,pu,amount\n", TableFault::ColumnMissing(0)),
    ];
    for (bytes, fault) in rows {
        assert!(rt; is_given(amount_fault(rt.alloc(), bytes), Err(Refusal::Table(fault))));
    }
}

/// The line of the last row.
fn last_line(table: &Table) -> Option<u32> {
    let rows = table.rows();
    if rows == 0 {
        return None;
    }
    Some(table.line(rows - 1))
}

fn last_amount_line(alloc: Global, bytes: &[u8]) -> Result<Option<u32>, Refusal> {
    let table = amount_table(alloc, bytes)?;
    Ok(last_line(&table))
}

#[test]
fn counts_the_header_as_line_1(rt: HostRuntime) {
    let rows: [(&[u8], Option<u32>); 3] = [
        (AMOUNTS, Some(4)),
        (b"species,pu,amount\n\n1,1,2\n\n", Some(2)),
        (b"species,pu,amount\n", None),
    ];
    for (bytes, line) in rows {
        assert!(rt; is_given(last_amount_line(rt.alloc(), bytes), Ok(line)));
    }
}

use crate::fields::written;
use mz_num::NoMemory;
use std::alloc::Global;
use std::test::Fail;

fn is_written(alloc: Global, name: &[u8], field: &[u8]) -> Result<bool, NoMemory> {
    Ok(written(alloc, name)?.as_slice() == field)
}

#[test]
fn names_are_quoted_where_a_reader_needs_it(rt: HostRuntime) -> Result<(), Fail> {
    let alloc = rt.alloc();
    assert!(rt; is_written(alloc, b"old forest", b"old forest")?);
    assert!(rt; is_written(alloc, b"", b"")?);
    assert!(rt; is_written(alloc, b"a,b\"c\"\n\xff", b"\"a,b\"\"c\"\"\n\xff\"")?);
    Ok(())
}

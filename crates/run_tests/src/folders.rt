//! Names of files in folders.
use mz_params::file_in_folder;
use std::test::Fail;

#[test]
fn one_mark_at_the_end_of_a_folder_is_dropped(rt: HostRuntime) -> Result<(), Fail> {
    let table = [
        ("", "pu.dat"),
        ("input", "input/pu.dat"),
        ("input/", "input/pu.dat"),
        ("input\\", "input/pu.dat"),
        ("input//", "input//pu.dat"),
        ("/", "pu.dat"),
    ];
    for (folder, wanted) in table {
        let file = file_in_folder(rt.alloc(), folder, "pu.dat")?;
        assert_eq!(rt; file.as_str(), wanted);
    }
    Ok(())
}

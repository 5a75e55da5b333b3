//! Names of files within the folders that a parameter file gives.
ghost use Rattle.std.specs.Prelude.{◌≡◌, IfOk};
ghost use Rattle.mz_params.specs.Folder.{behind_folder, file_in, without_end_mark};

use mz_num::{NoMemory, Text};
use std::alloc::Global;

/// The file of that name in a folder: a `/` stands between them. One `/` or `\` at the folder's end
/// doesn't count, and an empty folder adds nothing. This is the project's profile.
pub fn file_in_folder(alloc: Global, folder: &str, name: &str) -> Result<Text, NoMemory>
    ensures { IfOk result (λ file. file ≡ file_in folder.now name.now) }
{
    let folder = folder_name(folder);
    let mut file = String::new(alloc);
    if !folder.is_empty() {
        file.push_str(folder)?;
        file.push('/')?;
    }
    file.push_str(name)?;
    Ok(Text::new(file))
}

/// The folder without the one mark at its end.
fn folder_name(folder: &str) -> &str
    ensures { result.now ≡ without_end_mark folder.now }
{
    match folder.strip_suffix('/') {
        Some(front) => front,
        None => match folder.strip_suffix('\\') {
            Some(front) => front,
            None => folder,
        },
    }
}

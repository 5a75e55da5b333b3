//! The columns of a file, which the crate that reads it lists once.

/// A column of a file. From such a list a table's wants are made, and messages take its names.
#[derive(Clone, Copy, Debug)]
pub struct Column {
    /// The name of its header cell, by which messages name it.
    pub name: &'static str,
    /// The name that is looked for where no cell has the first; none where it is empty.
    pub other: &'static str,
    /// Whether a file is refused without it.
    pub needed: bool,
}

//! Why a project wasn't made whole.
use mz_num::Text;

/// Why a project wasn't made whole. Files that were written stay.
#[derive(Debug, Drop)]
pub enum GenFault {
    /// A write of this file failed.
    Shelf(Text),
    NoMemory,
}

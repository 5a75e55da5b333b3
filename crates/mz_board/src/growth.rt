//! The list that an entry makes longer, for the proof of the step that counts it.
ghost use Rattle.std.specs.Prelude.{List, []};

use std::marker::Brand;

/// A list that is picked where a call passes `Brand`.
pub(crate) trait Growth<E> {
    // The longer list.
    ghost list: { List E };
}

impl<E> Growth<E> for Brand {
    ghost list = { [] };
}

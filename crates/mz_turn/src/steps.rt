//! What each kind of step on the table tells.
ghost use Rattle.mz_turn.specs.Steps.{tried, measured, counted, appended, released, entered};
ghost use Rattle.mz_turn.specs.Views.{copied_view, joined_view, spent_view, dealing_view, dealt_view};

use crate::story::Story;
use crate::view::View;
use atomic_table::{Join, Play, Split};
use std::marker::PhantomData;

/// A try for the turn.
pub(crate) struct Try<T> {
    story: PhantomData<T>,
}

impl<T: Story> Play<Option<T>, View<T::Entry, T::Setting>> for Try<T> {
    ghost then = { tried T.entries T.owner T.setting };
}

/// A load of the count by the holder.
pub(crate) struct Measure<T> {
    story: PhantomData<T>,
}

impl<T: Story> Play<Option<T>, View<T::Entry, T::Setting>> for Measure<T> {
    ghost then = { measured T.entries T.owner T.setting };
}

/// A load of the count.
pub(crate) struct Count<T> {
    story: PhantomData<T>,
}

impl<T: Story> Play<Option<T>, View<T::Entry, T::Setting>> for Count<T> {
    ghost then = { counted T.entries T.owner T.setting };
}

/// The holder's entry is counted.
pub(crate) struct Append<T> {
    story: PhantomData<T>,
}

impl<T: Story> Play<Option<T>, View<T::Entry, T::Setting>> for Append<T> {
    ghost then = { appended T.entries T.owner T.setting };
}

/// The turn is given back.
pub(crate) struct Release<T> {
    story: PhantomData<T>,
}

impl<T: Story> Play<Option<T>, View<T::Entry, T::Setting>> for Release<T> {
    ghost then = { released T.entries T.owner T.setting };
}

/// A seat that knows nothing comes.
pub(crate) struct Enter<T> {
    story: PhantomData<T>,
}

impl<T: Story> Play<Option<T>, View<T::Entry, T::Setting>> for Enter<T> {
    ghost then = { entered T.entries T.owner T.setting };
}

/// What was seen is copied.
pub(crate) struct Copied;

impl<E, S> Split<View<E, S>> for Copied {
    ghost left = { λ v. v };

    ghost right = { copied_view };
}

/// A number is given over to a new chair.
pub(crate) struct Deal;

impl<E, S> Split<View<E, S>> for Deal {
    ghost left = { dealing_view };

    ghost right = { dealt_view };
}

/// Two views are made one.
pub(crate) struct Both;

impl<E, S> Join<View<E, S>> for Both {
    ghost both = { joined_view };

    ghost spent = { spent_view };
}

//! What each kind of step on the table tells.
ghost use Rattle.mz_board.specs.Steps.{tried, counted, appended, stored, published, released, fronted, loaded, entered};
ghost use Rattle.mz_board.specs.Views.{copied_view, joined_view, spent_view, dealing_view, dealt_view};

use crate::growth::Growth;
use crate::story::Story;
use crate::view::View;
use atomic_table::{Join, Play, Split};
use std::marker::PhantomData;

/// A try for the turn.
pub(crate) struct Try<T> {
    story: PhantomData<T>,
}

impl<T: Story> Play<Option<T>, View<T::Entry, T::Setting>> for Try<T> {
    ghost then = { tried T.Story };
}

/// A load of the count.
pub(crate) struct Count<T> {
    story: PhantomData<T>,
}

impl<T: Story> Play<Option<T>, View<T::Entry, T::Setting>> for Count<T> {
    ghost then = { counted T.Story };
}

/// The holder's entry is counted. G has the longer list.
pub(crate) struct Append<G, T> {
    story: PhantomData<(G, T)>,
}

impl<G: Growth<T::Entry>, T: Story> Play<Option<T>, View<T::Entry, T::Setting>> for Append<G, T> {
    ghost then = { appended T.Story G.list };
}

/// The holder stores an item.
pub(crate) struct StoreItem<T> {
    story: PhantomData<T>,
}

impl<T: Story> Play<Option<T>, View<T::Entry, T::Setting>> for StoreItem<T> {
    ghost then = { stored T.Story };
}

/// The holder publishes the front.
pub(crate) struct Publish<T> {
    story: PhantomData<T>,
}

impl<T: Story> Play<Option<T>, View<T::Entry, T::Setting>> for Publish<T> {
    ghost then = { published T.Story };
}

/// The turn is given back.
pub(crate) struct Release<T> {
    story: PhantomData<T>,
}

impl<T: Story> Play<Option<T>, View<T::Entry, T::Setting>> for Release<T> {
    ghost then = { released T.Story };
}

/// A load of the front.
pub(crate) struct LoadFront<T> {
    story: PhantomData<T>,
}

impl<T: Story> Play<Option<T>, View<T::Entry, T::Setting>> for LoadFront<T> {
    ghost then = { fronted T.Story };
}

/// A load of an item.
pub(crate) struct LoadItem<T> {
    story: PhantomData<T>,
}

impl<T: Story> Play<Option<T>, View<T::Entry, T::Setting>> for LoadItem<T> {
    ghost then = { loaded T.Story };
}

/// A seat that knows nothing comes.
pub(crate) struct Enter<T> {
    story: PhantomData<T>,
}

impl<T: Story> Play<Option<T>, View<T::Entry, T::Setting>> for Enter<T> {
    ghost then = { entered T.Story };
}

/// What was seen is copied.
pub(crate) struct Copied;

impl<E, S> Split<View<E, S>> for Copied {
    ghost left = { λ v. v };

    ghost right = { copied_view };
}

/// A number is given over to a new chair.
pub(crate) struct Deal;

impl<E, S> Split<View<E, S>> for Deal {
    ghost left = { dealing_view };

    ghost right = { dealt_view };
}

/// Two views are made one.
pub(crate) struct Both;

impl<E, S> Join<View<E, S>> for Both {
    ghost both = { joined_view };

    ghost spent = { spent_view };
}

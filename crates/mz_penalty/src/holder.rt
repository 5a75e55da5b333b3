//! The units that hold a feature, and their order.
ghost use Rattle.std.specs.Prelude.{◌≤◌};

use std::cmp::Ordering;

/// A unit with a positive amount of a feature. Its raw cost and the amount are in ten-thousandths.
#[derive(Clone, Copy, Debug)]
pub(crate) struct Holder {
    pub(crate) place: u32,
    pub(crate) cost: u64,
    pub(crate) amount: u64,
    pub(crate) ghost positive: { 1 ≤ amount },
}

impl Holder {
    ghost use Rattle.std.specs.Prelude.{◌≡◌};
    ghost use Rattle.std.specs.Ordering.{is_lt};
    ghost use Rattle.mz_penalty.specs.Order.{comes_before};
    ghost use Rattle.mz_penalty.specs.Ordered.{held};

    /// The order in which units are taken: by raw cost per amount, and among equals by place. The
    /// cross products are exact.
    pub(crate) fn order(&self, other: &Holder) -> Ordering
        ensures { is_lt result ≡ comes_before (held self.now) (held other.now) }
    {
        let own = u128::from(self.cost) * u128::from(other.amount);
        let others = u128::from(other.cost) * u128::from(self.amount);
        own.cmp(&others).then(self.place.cmp(&other.place))
    }
}

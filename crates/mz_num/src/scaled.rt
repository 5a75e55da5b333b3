//! Whole numbers at the two scales of the profile, each at most 10^18.
use std::marker::Model;

/// A whole number of ten-thousandths, as amounts, costs, lengths and scores are. At most 10^18.
#[derive(Clone, Copy, Debug, PartialEq, Eq, PartialOrd, Ord)]
pub struct Ten4(pub u64);

impl Model for Ten4 {
    ghost use Rattle.std.specs.Prelude.{ℕ, ◌≤◌};
    ghost use Rattle.mz_num.specs.Limits.{greatest_quantity};

    ghost Value = { ℕ };

    ghost view = { λ t. t.0 };

    ghost invariant = { λ t. t.0 ≤ greatest_quantity };

    ghost inverse = { λ n. record { 0 = n } };
}

/// A whole number of millionths, as multipliers, fractions and rates are. At most 10^18.
#[derive(Clone, Copy, Debug, PartialEq, Eq, PartialOrd, Ord)]
pub struct Mic6(pub u64);

impl Model for Mic6 {
    ghost use Rattle.std.specs.Prelude.{ℕ, ◌≤◌};
    ghost use Rattle.mz_num.specs.Limits.{greatest_quantity};

    ghost Value = { ℕ };

    ghost view = { λ m. m.0 };

    ghost invariant = { λ m. m.0 ≤ greatest_quantity };

    ghost inverse = { λ n. record { 0 = n } };
}

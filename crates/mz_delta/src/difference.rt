//! Differences of sums.
ghost use Rattle.std.specs.Prelude.{◌≡◌, ◌*◌, ◌^◌, ◌≤◌, pos, ◌+ℤ◌, ◌-ℤ◌, unsigned_abs};
ghost use Rattle.mz_num.specs.Limits.{greatest_score};

/// What a term was before a move, and what it is after it. Where the two are equal both may be left out.
#[derive(Clone, Copy)]
pub(crate) struct Terms {
    pub before: u64,
    pub after: u64,
}

/// By how much a move changes the cost, the boundary and the penalty of a plan.
#[derive(Clone, Copy)]
pub(crate) struct Differences {
    pub cost: i128,
    pub boundary: i128,
    pub penalty: i128,
}

/// By how much a sum grew.
#[inline]
pub(crate) fn difference(after: u128, before: u128) -> i128
    requires after { after ≤ 3 * 10 ^ 24 }
    requires before { before ≤ 3 * 10 ^ 24 }
    ensures value { result ≡ pos after -ℤ pos before }
    ensures small { unsigned_abs result ≤ 3 * 10 ^ 24 }
{
    after as i128 - before as i128
}

/// The sum of three differences.
#[inline]
pub(crate) fn sum_of(cost: i128, boundary: i128, penalty: i128) -> i128
    requires cost { unsigned_abs cost ≤ 3 * 10 ^ 24 }
    requires boundary { unsigned_abs boundary ≤ 3 * 10 ^ 24 }
    requires penalty { unsigned_abs penalty ≤ 3 * 10 ^ 24 }
    ensures sum { result ≡ cost +ℤ boundary +ℤ penalty }
    ensures small { unsigned_abs result ≤ greatest_score }
{
    cost + boundary + penalty
}

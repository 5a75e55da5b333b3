//! The best of several runs.
ghost use Rattle.std.specs.Prelude.{◌≡◌, ◌+◌, ◌↔◌, ◌<◌, [], IfSome, IsNone, length};
ghost use Rattle.mz_sums.specs.Best.{IsBestOf, IsFirstLeast, IsFirstLeastOf, best_of};

/// The place of the least score, and the first such place where several runs have it. There is none
/// where there are no scores.
pub fn best_of(scores: &[u128]) -> Option<usize>
    ensures place { result ≡ best_of scores.now }
    ensures least { IfSome result (IsFirstLeast scores.now) }
    ensures empty { IsNone result ↔ (scores.now ≡ []) }
{
    let mut best = None;
    for place in 0..scores.len() {
        best = Some(better(scores, best, place));
    }
    best
}

/// The best place so far, unless the next one has a lower score.
fn better(scores: &[u128], best: Option<usize>, place: usize) -> usize
    requires next { place < length scores.now }
    requires earlier { IsBestOf place scores.now best }
    ensures { IsFirstLeastOf (place + 1) scores.now result }
{
    match best {
        Some(kept) if scores[kept] <= scores[place] => kept,
        _ => place,
    }
}

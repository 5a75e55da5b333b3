use crate::{SummaryRow, summary_text};
use mz_model::Score;
use mz_num::NoMemory;
use std::alloc::Global;
use std::test::Fail;

const FIRST: SummaryRow = SummaryRow {
    run: 1,
    score: Score {
        cost: 300_000,
        boundary: 90_000,
        penalty: 5,
        total: 390_005,
    },
    shortfall: 12_345,
    missing: 2,
    entries: 100,
    seed: 7,
};

fn is_summary(alloc: Global, rows: &[SummaryRow], text: &[u8]) -> Result<bool, NoMemory> {
    Ok(summary_text(alloc, rows)?.as_slice() == text)
}

#[test]
fn a_run_has_a_line_of_nine_fields(rt: HostRuntime) -> Result<(), Fail> {
    let text = b"run,score,cost,boundary,penalty,shortfall,missing,entries,seed\n\
        1,39.0005,30.0000,9.0000,0.0005,1.2345,2,100,7\n";
    assert!(rt; is_summary(rt.alloc(), &[FIRST], text)?);
    Ok(())
}

//! What the watchers report.
ghost use Rattle.std.specs.Prelude.{◌≡◌, map, IfOk};
ghost use Rattle.mz_watch.specs.Watcher.{report_of};
ghost use Rattle.mz_run.specs.Watching.{reports_of};

use mz_num::NoMemory;
use mz_watch::Watcher;
use std::alloc::Global;

/// The report of each watcher, in order.
pub(crate) fn reports_of(alloc: Global, watchers: &[Box<dyn Watcher>]) -> Result<Vec<u64>, NoMemory>
    ensures { IfOk result (λ reports. reports.items ≡ reports_of (map (λ w. noted w) watchers.now)) }
{
    let mut reports = Vec::with_capacity(alloc, watchers.len())?;
    for watcher in watchers {
        reports.push(report_of(watcher))?;
    }
    Ok(reports)
}

fn report_of(watcher: &Box<dyn Watcher>) -> u64
    ensures { result ≡ report_of (noted watcher.now) }
{
    watcher.report()
}

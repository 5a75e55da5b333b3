//! The temperature of the next entry: kept, and not divided out for each.
ghost use Rattle.std.specs.Prelude.{◌≡◌, ◌<◌};
ghost use Rattle.mz_cool.specs.Level.{IsLevelFrom};

use mz_cool::{Level, Schedule};

/// The level of the position that is next, by that of an earlier one.
#[inline]
pub(crate) fn level_after(level: Level, schedule: &Schedule, limit: u32, position: u32) -> Level
    requires limit { limit ≡ schedule.now.limit }
    requires from { IsLevelFrom schedule.now position level }
    ensures from { IsLevelFrom schedule.now position result }
    ensures here { position < limit → position < result.end }
{
    if position < level.end || position >= limit {
        level
    } else {
        schedule.level_at(position)
    }
}

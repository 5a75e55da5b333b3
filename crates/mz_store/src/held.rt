//! The value under the store's board.
ghost use Rattle.std.specs.Prelude.{◌≡◌, length};
ghost use Rattle.mz_store.specs.RunSetting.{run_of};
ghost use Rattle.mz_store.specs.Told.{seat_of, told_all, writes};
ghost use Rattle.mz_store.specs.Words.{may_have};

use crate::common::Common;
use crate::told::Told;
use mz_board::Story;
use mz_state::Kept;

/// The state of the run. It is boxed, so that a turn moves one pointer.
#[derive(Drop)]
pub(crate) struct Held {
    pub(crate) kept: Box<Kept>,
}

impl Story for Held {
    type Entry = Told;

    type Setting = Common;

    ghost entries = { λ held. told_all held.kept.value.setting held.kept.value.journal };

    ghost owner = { seat_of };

    ghost setting = { λ held. run_of held.kept.value };

    ghost writes = { writes };

    ghost may_have = { λ run. may_have run.setting.parts };

    ghost most = { λ run. run.limit };

    fn length(&self) -> u64 {
        u64::from(self.kept.length())
    }
}

//! The random words of a generated project.
ghost use Rattle.std.specs.Prelude.{◌≡◌, ◌<◌, ◌^◌, IfOk, length};
ghost use Rattle.mz_gen.specs.Words.{words_of};

use mz_draw::Drawer;
use mz_num::NoMemory;
use std::alloc::Global;

/// Pcg32's stream 4095 is that of this run and seat: `63 * 64 + 63`.
const RUN: u32 = 63;

const SEAT: u8 = 63;

/// The first words of a number.
#[tactic(auto, unfolding(crate::specs::Words::words_of))]
pub(crate) fn words_of(alloc: Global, count: u32, number: u32) -> Result<Vec<u32>, NoMemory>
    ensures words { IfOk result (λ words. words.items ≡ words_of count number) }
    ensures whole { IfOk result (λ words. length words.items ≡ count) }
{
    let mut drawer = Drawer::new(u64::from(number), RUN, SEAT);
    let mut words = Vec::new(alloc);
    for _place in 0..count {
        words.push(drawer.word())?;
    }
    Ok(words)
}

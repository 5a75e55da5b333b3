//! The line that is said of a refusal.
ghost use Rattle.std.specs.Prelude.{◌≡◌, IfOk};
ghost use Rattle.mz_run.specs.Refusal.{text_of_status, refusal_line};
ghost use Rattle.mz_run.specs.Ending.{Refuses, SaysLine};

use crate::input_text::input_fault_text;
use crate::joined::joined;
use crate::status::Status;
use mz_num::NoMemory;
use mz_shelf::Shelf;
use std::alloc::Global;

/// The text of a status, without the word that refuses; none for a good end and for want of memory.
#[tactic(auto, unfolding(crate::specs::Refusal::text_of_status))]
pub fn fault_text(alloc: Global, status: &Status) -> Result<Vec<u8>, NoMemory>
    ensures { IfOk result (λ text. text.items ≡ text_of_status status.now) }
{
    match status {
        Status::Done => Ok(Vec::new(alloc)),
        Status::Words => joined(alloc, "words: use [file [workers]] or gen number", ""),
        Status::Input(fault) => input_fault_text(alloc, *fault),
        Status::ShelfFault(name) => joined(alloc, "fault: ", name.as_str()),
        Status::Absent(name) => joined(alloc, "absent: ", name.as_str()),
        Status::NoMemory => Ok(Vec::new(alloc)),
    }
}

fn line_of(alloc: Global, status: &Status) -> Result<Vec<u8>, NoMemory>
    ensures { IfOk result (λ line. line.items ≡ refusal_line status.now) }
{
    let mut line = Vec::from_slice(alloc, b"refused: ")?;
    let text = fault_text(alloc, status)?;
    line.extend_from_slice(&text)?;
    line.push(b'\n')?;
    Ok(line)
}

/// Says the refusal, if the status is one. What comes of that say changes no status.
pub(crate) fn refuse<S: Shelf>(alloc: Global, shelf: &mut S, status: &Status)
    ensures { Refuses status.now (S.state shelf.old) (S.state shelf.new) }
{
    match status {
        Status::Done => {}
        Status::NoMemory => {}
        Status::Words => say_refusal(alloc, shelf, status),
        Status::Input(_) => say_refusal(alloc, shelf, status),
        Status::ShelfFault(_) => say_refusal(alloc, shelf, status),
        Status::Absent(_) => say_refusal(alloc, shelf, status),
    }
}

fn say_refusal<S: Shelf>(alloc: Global, shelf: &mut S, status: &Status)
    ensures { SaysLine (refusal_line status.now) (S.state shelf.old) (S.state shelf.new) }
{
    if let Ok(line) = line_of(alloc, status) {
        let _ = shelf.say(alloc, &line);
    }
}

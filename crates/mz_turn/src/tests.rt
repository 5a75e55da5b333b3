//! Turns as their callers take them, with memory enough.
ghost use Rattle.std.specs.Prelude.{◌≡◌, ◌<◌, ℕ, [], ◌∷◌, map, Some, None, IfOk, IfSome, vec_len, slice_index_or};
ghost use Rattle.std.specs.List.{All};
ghost use Rattle.mz_turn.specs.Chair.{AreFresh};

use crate::{Chair, HoldsChair, Note, Story, TurnLock};
use log::{Line, Log};
use mz_num::NoMemory;
use std::alloc::Global;
use std::sync::Wait;
use std::test::Fail;
use std::thread;
use std::thread::Threads;

mod log;

/// Who sits at a chair, and the number of the desk.
#[derive(Drop)]
struct Clerk {
    chair: Chair<Log>,
    desk: u8,
}

impl HoldsChair<Log> for Clerk {
    ghost chair = { λ clerk. clerk.chair };

    fn into_chair(self) -> Chair<Log> {
        let Clerk { chair, desk: _ } = self;
        chair
    }
}

/// Takes a turn and adds a line in it.
fn write_line<R: Wait>(rt: &R, lock: &TurnLock<Log>, chair: &mut Chair<Log>, number: u64)
    requires { (chair.old.lock ≡ lock.now) × (chair.old.taken ≡ None) }
    ensures { (chair.new.lock ≡ chair.old.lock) × (chair.new.taken ≡ None) × (chair.new.number ≡ chair.old.number) }
{
    let mut log = lock.take(rt, chair);
    log.write(Line {
        chair: chair.number,
        number,
    });
    lock.put_back(chair, log);
}

/// The log of a lock that was opened over an empty one: each line in it is of a chair of the lock.
fn take_log<R: Wait>(rt: &R, lock: &TurnLock<Log>, chair: &mut Chair<Log>) -> Log
    requires chair { (chair.old.lock ≡ lock.now) × (chair.old.taken ≡ None) }
    requires opening { lock.now.opening ≡ [] }
    ensures lines { All (λ line. line.chair < lock.now.seats) result.lines.items }
    ensures setting { lock.now.setting ≡ Some result.name }
    ensures turn { (chair.new.lock ≡ lock.now) × (chair.new.taken ≡ Some result.lines.items) }
{
    lock.take(rt, chair)
}

/// Takes 125 turns with a line in each.
fn write_share<R: Wait>(rt: &R, lock: &TurnLock<Log>, mut chair: Chair<Log>) -> Chair<Log>
    requires { (chair.lock ≡ lock.now) × (chair.taken ≡ None) }
    ensures { (result.lock ≡ chair.lock) × (result.taken ≡ None) × (result.number ≡ chair.number) }
{
    for number in 0..125 {
        write_line(rt, lock, &mut chair, number);
    }
    chair
}

/// Each chair writes its share in a thread of its own.
fn write_all<R: Threads + Wait + Sync>(
    rt: &R,
    lock: &TurnLock<Log>,
    chairs: Vec<Chair<Log>>,
) -> Result<Vec<Chair<Log>>, NoMemory>
    requires { All (λ chair. (chair.lock ≡ lock.now) × (chair.taken ≡ None)) chairs.items }
    ensures len { IfOk result (λ back. vec_len back ≡ vec_len chairs) }
    ensures each { IfOk result (λ back. (k : ℕ) (d : _) → k < vec_len chairs
        → ((slice_index_or back.items k d).lock ≡ lock.now) × ((slice_index_or back.items k d).taken ≡ None)
        × ((slice_index_or back.items k d).number ≡ (slice_index_or chairs.items k d).number)) }
{
    let back = thread::map_vec(
        rt,
        chairs,
        &|chair: Chair<Log>| -> Chair<Log>
            requires { (chair.lock ≡ lock.now) × (chair.taken ≡ None) }
            ensures { (result.lock ≡ chair.lock) × (result.taken ≡ None) × (result.number ≡ chair.number) }
        { write_share(rt, lock, chair) },
    )?;
    Ok(back)
}

/// Eight threads write 1,000 lines, each its share. Each line in the log is of one of the eight.
fn written_by_eight<R: Threads + Wait + Sync>(rt: &R, alloc: Global) -> Result<Log, NoMemory>
    ensures { IfOk result (λ log. All (λ line. line.chair < 8) log.lines.items) }
{
    let (lock, chairs) = TurnLock::open(alloc, Log::new(alloc, 7), 8)?;
    let chairs = write_all(rt, &lock, chairs)?;
    Ok(lock.close(chairs))
}

/// The two chairs of a lock, in their order.
fn two_chairs(lock: &TurnLock<Log>, mut chairs: Vec<Chair<Log>>) -> Option<(Chair<Log>, Chair<Log>)>
    requires { AreFresh lock.now 2 chairs.items }
    ensures { IfSome result (λ two. (two.0.lock ≡ lock.now) × (two.0.taken ≡ None) × (two.0.number ≡ 0)
        × (two.1.lock ≡ lock.now) × (two.1.taken ≡ None) × (two.1.number ≡ 1)) }
{
    let _ = lock;
    let second = chairs.pop()?;
    let first = chairs.pop()?;
    Some((first, second))
}

/// The chair that a try is told of, where another try finds the turn free afterwards.
fn holder_of_the_turn(alloc: Global) -> Result<Option<u8>, NoMemory> {
    let (lock, chairs) = TurnLock::open(alloc, Log::new(alloc, 7), 2)?;
    let Some((mut first, mut second)) = two_chairs(&lock, chairs) else {
        return Ok(None);
    };
    let Ok(log) = lock.try_take(&mut first) else {
        return Ok(None);
    };
    let Err(holder) = lock.try_take(&mut second) else {
        return Ok(None);
    };
    lock.put_back(&mut first, log);
    let Ok(log) = lock.try_take(&mut second) else {
        return Ok(None);
    };
    lock.put_back(&mut second, log);
    Ok(Some(holder))
}

/// Writes a line, and a note of it.
fn write_note<R: Wait>(rt: &R, lock: &TurnLock<Log>, mut chair: Chair<Log>) -> Note<Log>
    requires { (chair.lock ≡ lock.now) × (chair.taken ≡ None) }
    ensures { result.lock ≡ lock.now }
{
    write_line(rt, lock, &mut chair, 0);
    lock.split(&mut chair)
}

/// Reads the note, and gives the count.
fn read_note(lock: &TurnLock<Log>, mut chair: Chair<Log>, note: Note<Log>) -> u64
    requires chair { chair.lock ≡ lock.now }
    requires note { note.lock ≡ lock.now }
{
    lock.join(&mut chair, note);
    lock.count(&mut chair)
}

/// A note is written in one thread and read in another.
fn count_by_note<R: Threads + Wait + Sync>(rt: &R, alloc: Global) -> Result<Option<u64>, NoMemory> {
    let (lock, chairs) = TurnLock::open(alloc, Log::new(alloc, 7), 2)?;
    let Some((first, second)) = two_chairs(&lock, chairs) else {
        return Ok(None);
    };
    let (note, ()) = thread::join(
        rt,
        || -> Note<Log>
            requires { (first.lock ≡ lock) × (first.taken ≡ None) }
            ensures { result.lock ≡ lock }
        { write_note(rt, &lock, first) },
        || (),
    );
    let (count, ()) = thread::join(
        rt,
        || -> u64
            requires { (second.lock ≡ lock) × (note.lock ≡ lock) }
        { read_note(&lock, second, note) },
        || (),
    );
    Ok(Some(count))
}

/// The count after a turn in which nothing is written.
fn count_after_an_empty_turn<R: Wait>(rt: &R, alloc: Global) -> Result<Option<u64>, NoMemory> {
    let (lock, chairs) = TurnLock::open(alloc, Log::new(alloc, 7), 2)?;
    let Some((mut first, mut second)) = two_chairs(&lock, chairs) else {
        return Ok(None);
    };
    let log = lock.take(rt, &mut first);
    lock.put_back(&mut first, log);
    Ok(Some(lock.count(&mut second)))
}

/// The number of lines that a chair takes once it has joined another's note.
fn taken_after_a_note<R: Wait>(rt: &R, alloc: Global) -> Result<Option<u64>, NoMemory> {
    let (lock, chairs) = TurnLock::open(alloc, Log::new(alloc, 7), 2)?;
    let Some((first, mut second)) = two_chairs(&lock, chairs) else {
        return Ok(None);
    };
    let note = write_note(rt, &lock, first);
    lock.join(&mut second, note);
    let log = take_log(rt, &lock, &mut second);
    let lines = log.length();
    lock.put_back(&mut second, log);
    Ok(Some(lines))
}

/// The count of a chair that has joined a later note and then an earlier one.
fn count_after_two_notes<R: Wait>(rt: &R, alloc: Global) -> Result<Option<u64>, NoMemory> {
    let (lock, chairs) = TurnLock::open(alloc, Log::new(alloc, 7), 2)?;
    let Some((mut first, mut second)) = two_chairs(&lock, chairs) else {
        return Ok(None);
    };
    write_line(rt, &lock, &mut first, 0);
    let earlier = lock.split(&mut first);
    let later = write_note(rt, &lock, first);
    lock.join(&mut second, later);
    lock.join(&mut second, earlier);
    Ok(Some(lock.count(&mut second)))
}

/// Two clerks with these chairs.
fn two_clerks(alloc: Global, first: Chair<Log>, second: Chair<Log>) -> Result<Vec<Clerk>, NoMemory>
    ensures { IfOk result (λ clerks. map (λ clerk. clerk.chair) clerks.items ≡ first ∷ second ∷ []) }
{
    let mut clerks = Vec::with_capacity(alloc, 2)?;
    clerks.push_reserved(Clerk {
        chair: first,
        desk: 1,
    });
    clerks.push_reserved(Clerk {
        chair: second,
        desk: 2,
    });
    Ok(clerks)
}

/// The number of lines of a lock that closes over two clerks, once the second has written a line.
fn lines_of_two_clerks<R: Wait>(rt: &R, alloc: Global) -> Result<Option<u64>, NoMemory> {
    let (lock, chairs) = TurnLock::open(alloc, Log::new(alloc, 7), 2)?;
    let Some((first, mut second)) = two_chairs(&lock, chairs) else {
        return Ok(None);
    };
    write_line(rt, &lock, &mut second, 0);
    let clerks = two_clerks(alloc, first, second)?;
    Ok(Some(lock.close_over(clerks).length()))
}

/// The length of a value that is put under a lock and taken out at once, by a caller that knows only its bounds.
fn length_through_a_lock<T: Story + Send + Drop>(alloc: Global, value: T) -> Result<u64, NoMemory> {
    let (lock, chairs) = TurnLock::open(alloc, value, 3)?;
    Ok(lock.close(chairs).length())
}

#[test]
fn eight_threads_lose_no_line(rt: HostRuntime) -> Result<(), Fail> {
    let log = written_by_eight(&rt, rt.alloc())?;
    assert_eq!(rt; log.lines_in_order(), Some(1000));
    assert_eq!(rt; log.name(), 7);
    Ok(())
}

#[test]
fn a_try_is_told_of_the_holder(rt: HostRuntime) -> Result<(), Fail> {
    assert_eq!(rt; holder_of_the_turn(rt.alloc())?, Some(0));
    Ok(())
}

#[test]
fn a_note_reaches_another_thread(rt: HostRuntime) -> Result<(), Fail> {
    assert_eq!(rt; count_by_note(&rt, rt.alloc())?, Some(1));
    Ok(())
}

#[test]
fn an_empty_turn_adds_nothing(rt: HostRuntime) -> Result<(), Fail> {
    assert_eq!(rt; count_after_an_empty_turn(&rt, rt.alloc())?, Some(0));
    Ok(())
}

#[test]
fn a_take_after_a_note_finds_its_line(rt: HostRuntime) -> Result<(), Fail> {
    assert_eq!(rt; taken_after_a_note(&rt, rt.alloc())?, Some(1));
    Ok(())
}

#[test]
fn a_count_after_two_notes_tells_of_both(rt: HostRuntime) -> Result<(), Fail> {
    assert_eq!(rt; count_after_two_notes(&rt, rt.alloc())?, Some(2));
    Ok(())
}

#[test]
fn a_lock_closes_over_what_holds_its_chairs(rt: HostRuntime) -> Result<(), Fail> {
    assert_eq!(rt; lines_of_two_clerks(&rt, rt.alloc())?, Some(1));
    Ok(())
}

#[test]
fn a_lock_at_a_known_type(rt: HostRuntime) -> Result<(), Fail> {
    let mut log = Log::new(rt.alloc(), 7);
    log.write(Line {
        chair: 2,
        number: 0,
    });
    assert_eq!(rt; length_through_a_lock(rt.alloc(), log)?, 1);
    Ok(())
}

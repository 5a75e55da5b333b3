//! Turns and loads as their callers make them, with memory enough.
ghost use Rattle.std.specs.Prelude.{◌≡◌, ◌<◌, ◌≤◌, ◌++◌, [], ◌∷◌, length, false, Some, None, IfOk, IfSome};
ghost use Rattle.std.specs.List.{All};
ghost use Rattle.mz_board.specs.Chair.{AreFresh};

use crate::{Board, Chair, Note, Story};
use log::{Line, Log};
use mz_num::NoMemory;
use std::alloc::Global;
use std::sync::Wait;
use std::test::Fail;
use std::thread;
use std::thread::Threads;

mod log;

/// The opening words of four items.
const WORDS: [u64; 4] = [0, 0, 0, 0];

/// How many lines each of eight writers writes.
const SHARE: u64 = 125;

/// Appends the line that the log has more than the taken one, and stores its item.
fn append_line(board: &Board<Log>, chair: &mut Chair<Log>, log: &Log, line: Line)
    requires lock { (chair.old.lock ≡ board.now) × (chair.old.lock.setting ≡ Some log.now.name) }
    requires turn { (chair.old.taken ≡ Some chair.old.seen) × (chair.old.post.appended ≡ false) }
    requires line { (log.now.lines.items ≡ chair.old.seen ++ line ∷ []) × (length log.now.lines.items ≤ 1000)
        × (line.chair ≡ chair.old.number) × (line.item < length chair.old.lock.opening) }
    ensures turn { (chair.new.taken ≡ Some log.now.lines.items) × (chair.new.seen ≡ log.now.lines.items)
        × (chair.new.post.owes ≡ []) }
    ensures same { (chair.new.lock ≡ chair.old.lock) × (chair.new.number ≡ chair.old.number) }
{
    board.append(chair, log);
    board.store_item(chair, line.item, line.value);
}

/// Writes a line of the log in a turn, where there is room.
fn add_line(board: &Board<Log>, chair: &mut Chair<Log>, log: &mut Log, line: Line)
    requires lock { (chair.old.lock ≡ board.now) × (chair.old.lock.setting ≡ Some log.old.name) }
    requires turn { (chair.old.taken ≡ Some log.old.lines.items) × (chair.old.seen ≡ log.old.lines.items)
        × (chair.old.post.appended ≡ false) × (chair.old.post.owes ≡ []) }
    requires line { (line.chair ≡ chair.old.number) × (line.item < length chair.old.lock.opening) }
    ensures turn { (chair.new.taken ≡ Some log.new.lines.items) × (chair.new.seen ≡ log.new.lines.items)
        × (chair.new.post.owes ≡ []) }
    ensures same { (chair.new.lock ≡ chair.old.lock) × (chair.new.number ≡ chair.old.number)
        × (log.new.name ≡ log.old.name) }
{
    if log.write(line) {
        append_line(board, chair, log, line);
    }
}

/// Takes a turn and adds a line in it.
fn write_line<R: Wait>(
    rt: &R,
    board: &Board<Log>,
    chair: &mut Chair<Log>,
    number: u64,
    item: u32,
    value: u64,
)
    requires free { (chair.old.lock ≡ board.now) × (chair.old.taken ≡ None) }
    requires item { item < length chair.old.lock.opening }
    ensures { (chair.new.lock ≡ chair.old.lock) × (chair.new.taken ≡ None) × (chair.new.number ≡ chair.old.number) }
{
    let mut log = board.take(rt, chair);
    let line = Line {
        chair: chair.number,
        number,
        item,
        value,
    };
    add_line(board, chair, &mut log, line);
    board.put_back(chair, log);
}

/// Takes 125 turns with a line in each, which writes one of the four items.
fn write_share<R: Wait>(rt: &R, board: &Board<Log>, mut chair: Chair<Log>) -> Chair<Log>
    requires { (chair.lock ≡ board.now) × (chair.taken ≡ None) × (4 ≤ length chair.lock.opening) }
    ensures { (result.lock ≡ chair.lock) × (result.taken ≡ None) × (result.number ≡ chair.number) }
{
    for number in 0..SHARE {
        let value = chair.number as u64 * SHARE + number + 1;
        write_line(rt, board, &mut chair, number, (number % 4) as u32, value);
    }
    chair
}

/// The values of the four items after the front.
fn load_items(board: &Board<Log>, chair: &mut Chair<Log>) -> [u64; 4]
    requires { (chair.old.lock ≡ board.now) × (chair.old.taken ≡ None) × (4 ≤ length chair.old.lock.opening) }
    ensures { (chair.new.lock ≡ chair.old.lock) × (chair.new.taken ≡ None) × (chair.new.number ≡ chair.old.number) }
{
    board.prefetch(3);
    board.load_front(chair);
    let first = board.load_item(chair, 0);
    let second = board.load_item(chair, 1);
    let third = board.load_item(chair, 2);
    let fourth = board.load_item(chair, 3);
    [first, second, third, fourth]
}

/// Loads the front and the items again and again.
fn load_often(board: &Board<Log>, mut chair: Chair<Log>) -> Chair<Log>
    requires { (chair.lock ≡ board.now) × (chair.taken ≡ None) × (4 ≤ length chair.lock.opening) }
    ensures { (result.lock ≡ chair.lock) × (result.taken ≡ None) × (result.number ≡ chair.number) }
{
    for _ in 0..20_000 {
        load_items(board, &mut chair);
    }
    chair
}

/// A chair below 8 writes its share, and any other one loads.
fn use_chair<R: Wait>(rt: &R, board: &Board<Log>, chair: Chair<Log>) -> Chair<Log>
    requires { (chair.lock ≡ board.now) × (chair.taken ≡ None) × (4 ≤ length chair.lock.opening) }
    ensures { (result.lock ≡ chair.lock) × (result.taken ≡ None) × (result.number ≡ chair.number) }
{
    if chair.number < 8 {
        write_share(rt, board, chair)
    } else {
        load_often(board, chair)
    }
}

/// Each chair is used in a thread of its own.
fn use_all<R: Threads + Wait + Sync>(
    rt: &R,
    board: &Board<Log>,
    chairs: Vec<Chair<Log>>,
) -> Result<Vec<Chair<Log>>, NoMemory>
    requires chairs { All (λ chair. (chair.lock ≡ board.now) × (chair.taken ≡ None)) chairs.items }
    requires items { 4 ≤ length board.now.opening }
    ensures { IfOk result (λ back. All (λ chair. (chair.lock ≡ board.now) × (chair.taken ≡ None)) back.items) }
{
    let back = thread::map_vec(
        rt,
        chairs,
        &|chair: Chair<Log>| -> Chair<Log>
            requires { (chair.lock ≡ board.now) × (chair.taken ≡ None) × (4 ≤ length board.now.opening) }
            ensures { (result.lock ≡ chair.lock) × (result.taken ≡ None) × (result.number ≡ chair.number) }
        { use_chair(rt, board, chair) },
    )?;
    Ok(back)
}

/// The last of the chairs.
fn last_chair(board: &Board<Log>, mut chairs: Vec<Chair<Log>>) -> Option<Chair<Log>>
    requires { All (λ chair. (chair.lock ≡ board.now) × (chair.taken ≡ None)) chairs.items }
    ensures { IfSome result (λ chair. (chair.lock ≡ board.now) × (chair.taken ≡ None)) }
{
    let _ = board;
    chairs.pop()
}

/// Eight threads write 1,000 lines, each its share, while two load: the log, and whether each item has its last value.
fn written_by_eight<R: Threads + Wait + Sync>(
    rt: &R,
    alloc: Global,
) -> Result<Option<(Log, bool)>, NoMemory> {
    let (board, chairs) = Board::open(alloc, Log::new(alloc, 7), &WORDS, 10)?;
    let chairs = use_all(rt, &board, chairs)?;
    let Some(mut chair) = last_chair(&board, chairs) else {
        return Ok(None);
    };
    let values = load_items(&board, &mut chair);
    let log = board.take(rt, &mut chair);
    let last = log.last_values();
    Ok(Some((log, values == last)))
}

/// The two chairs of a board, in their order.
fn two_chairs(board: &Board<Log>, mut chairs: Vec<Chair<Log>>) -> Option<(Chair<Log>, Chair<Log>)>
    requires { AreFresh board.now 2 chairs.items }
    ensures { IfSome result (λ two. (two.0.lock ≡ board.now) × (two.0.taken ≡ None)
        × (two.1.lock ≡ board.now) × (two.1.taken ≡ None)) }
{
    let _ = board;
    let second = chairs.pop()?;
    let first = chairs.pop()?;
    Some((first, second))
}

/// The front and the first item that a chair loads while another has the turn and has stored the item, and the front
/// that it loads after the turn.
fn loaded_beside_a_turn<R: Wait>(
    rt: &R,
    alloc: Global,
) -> Result<Option<(u64, u64, u64)>, NoMemory> {
    let (board, chairs) = Board::open(alloc, Log::new(alloc, 7), &WORDS, 2)?;
    let Some((mut first, mut second)) = two_chairs(&board, chairs) else {
        return Ok(None);
    };
    let mut log = board.take(rt, &mut first);
    let line = Line {
        chair: first.number,
        number: 0,
        item: 0,
        value: 9,
    };
    add_line(&board, &mut first, &mut log, line);
    let before = board.load_front(&mut second);
    let item = board.load_item(&mut second, 0);
    board.put_back(&mut first, log);
    let after = board.load_front(&mut second);
    Ok(Some((before, item, after)))
}

/// The chair that a try is told of, where another try finds the turn free afterwards.
fn holder_of_the_turn(alloc: Global) -> Result<Option<u8>, NoMemory> {
    let (board, chairs) = Board::open(alloc, Log::new(alloc, 7), &WORDS, 2)?;
    let Some((mut first, mut second)) = two_chairs(&board, chairs) else {
        return Ok(None);
    };
    let Ok(log) = board.try_take(&mut first) else {
        return Ok(None);
    };
    let Err(holder) = board.try_take(&mut second) else {
        return Ok(None);
    };
    board.put_back(&mut first, log);
    let Ok(log) = board.try_take(&mut second) else {
        return Ok(None);
    };
    board.put_back(&mut second, log);
    Ok(Some(holder))
}

/// Writes a line, and a note of it.
fn write_note<R: Wait>(rt: &R, board: &Board<Log>, mut chair: Chair<Log>) -> Note<Log>
    requires { (chair.lock ≡ board.now) × (chair.taken ≡ None) × (4 ≤ length chair.lock.opening) }
    ensures { result.lock ≡ board.now }
{
    write_line(rt, board, &mut chair, 0, 0, 9);
    board.split(&mut chair)
}

/// Reads the note, and gives the count.
fn read_note(board: &Board<Log>, mut chair: Chair<Log>, note: Note<Log>) -> u64
    requires chair { (chair.lock ≡ board.now) × (chair.taken ≡ None) }
    requires note { note.lock ≡ board.now }
{
    board.join(&mut chair, note);
    board.count(&mut chair)
}

/// A note is written in one thread and read in another.
fn count_by_note<R: Threads + Wait + Sync>(rt: &R, alloc: Global) -> Result<Option<u64>, NoMemory> {
    let (board, chairs) = Board::open(alloc, Log::new(alloc, 7), &WORDS, 2)?;
    let Some((first, second)) = two_chairs(&board, chairs) else {
        return Ok(None);
    };
    let (note, ()) = thread::join(
        rt,
        || -> Note<Log>
            requires { (first.lock ≡ board) × (first.taken ≡ None) × (4 ≤ length first.lock.opening) }
            ensures { result.lock ≡ board }
        { write_note(rt, &board, first) },
        || (),
    );
    let (count, ()) = thread::join(
        rt,
        || -> u64
            requires { (second.lock ≡ board) × (second.taken ≡ None) × (note.lock ≡ board) }
        { read_note(&board, second, note) },
        || (),
    );
    Ok(Some(count))
}

/// The length of a value that is put under a board and taken out at once, by a caller that knows only its bounds.
fn length_through_a_board<T: Story + Send + Drop>(alloc: Global, value: T) -> Result<u64, NoMemory>
    requires { T.entries value ≡ [] }
{
    let (board, chairs) = Board::open(alloc, value, &[], 3)?;
    Ok(board.close(chairs).length())
}

#[test]
fn eight_threads_lose_no_line(rt: HostRuntime) -> Result<(), Fail> {
    let Some((log, same)) = written_by_eight(&rt, rt.alloc())? else {
        return Ok(());
    };
    assert_eq!(rt; log.lines_in_order(), Some(1000));
    assert!(rt; same);
    assert_eq!(rt; log.name(), 7);
    Ok(())
}

#[test]
fn an_item_is_stored_before_it_is_published(rt: HostRuntime) -> Result<(), Fail> {
    assert_eq!(rt; loaded_beside_a_turn(&rt, rt.alloc())?, Some((0, 9, 1)));
    Ok(())
}

#[test]
fn a_try_is_told_of_the_holder(rt: HostRuntime) -> Result<(), Fail> {
    assert_eq!(rt; holder_of_the_turn(rt.alloc())?, Some(0));
    Ok(())
}

#[test]
fn a_note_reaches_another_thread(rt: HostRuntime) -> Result<(), Fail> {
    assert_eq!(rt; count_by_note(&rt, rt.alloc())?, Some(1));
    Ok(())
}

#[test]
fn a_board_at_a_known_type(rt: HostRuntime) -> Result<(), Fail> {
    assert_eq!(rt;
        length_through_a_board(rt.alloc(), Log::new(rt.alloc(), 7))?,
        0
    );
    Ok(())
}

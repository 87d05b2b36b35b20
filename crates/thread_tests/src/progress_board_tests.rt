ghost use Rattle.std.specs.Prelude.{◌≡◌, ◌+◌, ◌<◌, ◌≤◌, true, [], length, All, IfOk};

use progress_board::{Board, InSlot, Seat};
use std::alloc::{AllocError, Global};
use std::test::Fail;
use std::thread;
use std::thread::Threads;

const LANES: u8 = 16;

const TICKETS: usize = 100_000;
// Turns after which a thread gives up that waits for the others.
const TURNS: u32 = 100_000_000;

// What lies in a slot: how often it was taken.
#[derive(Drop)]
struct Held {
    slot: u8,
    taken: u64,
}

impl InSlot for Held {
    ghost names = { λ held. held.slot };

    fn slot(&self) -> u8 {
        self.slot
    }
}

#[derive(Drop)]
struct Worker {
    seat: Seat<Held>,
    drawn: Vec<u64>,
    taken: u64,
    met: bool,
}

// What came of a run.
#[derive(Drop)]
struct Told {
    once: bool,
    raised: u64,
    met: bool,
    // How often a worker took the outlet, and how often it says that it was taken.
    taken: u64,
    counted: u64,
    source: u64,
}

fn draw_all(board: &Board<Held>, seat: &mut Seat<Held>, drawn: &mut [u64])
    requires board { seat.old.board ≡ board.now.board }
    requires lanes { board.now.lanes ≡ 16 }
    ensures board { seat.new.board ≡ seat.old.board }
    ensures has { seat.new.view.has ≡ seat.old.view.has }
{
    for place in drawn.iter_mut() {
        *place = board.draw(seat);
        board.raise(seat, 5);
    }
}

// Takes the outlet where it can, and answers how often.
fn take_all(board: &Board<Held>, seat: &mut Seat<Held>) -> u64
    requires board { seat.old.board ≡ board.now.board }
    requires free { seat.old.view.has ≡ [] }
    ensures board { seat.new.board ≡ seat.old.board }
    ensures free { seat.new.view.has ≡ [] }
{
    let mut taken: u64 = 0;
    for _ in 0..1000u32 {
        if let Some(mut held) = board.take(seat, 1) {
            held.taken = held.taken.wrapping_add(1);
            board.give(seat, 1, held);
            taken = taken.wrapping_add(1);
        }
    }
    taken
}

// Waits until so many have come here, which they do only if they run at once.
fn meet(board: &Board<Held>, seat: &mut Seat<Held>, all: u64) -> bool
    requires board { seat.old.board ≡ board.now.board }
    requires lanes { board.now.lanes ≡ 16 }
    ensures board { seat.new.board ≡ seat.old.board }
    ensures has { seat.new.view.has ≡ seat.old.view.has }
{
    board.raise(seat, 15);
    for _ in 0..TURNS {
        if board.seen(seat, 15) >= all {
            return true;
        }
        thread::yield_now();
    }
    false
}

fn work(board: &Board<Held>, worker: &mut Worker, all: u64)
    requires board { worker.old.seat.board ≡ board.now.board }
    requires lanes { board.now.lanes ≡ 16 }
    requires free { worker.old.seat.view.has ≡ [] }
    ensures board { worker.new.seat.board ≡ board.now.board }
    ensures free { worker.new.seat.view.has ≡ [] }
{
    worker.met = meet(board, &mut worker.seat, all);
    draw_all(board, &mut worker.seat, worker.drawn.as_mut_slice());
    worker.taken = take_all(board, &mut worker.seat);
}

fn run_all<R: Threads + Sync>(rt: &R, board: &Board<Held>, crew: &mut [Worker], all: u8)
    requires all { 0 < all }
    requires lanes { board.now.lanes ≡ 16 }
    requires crew { All (λ w. (w.seat.board ≡ board.now.board) × (w.seat.view.has ≡ [])) crew.old }
    ensures crew { All (λ w. (w.seat.board ≡ board.now.board) × (w.seat.view.has ≡ [])) crew.new }
{
    thread::for_each_mut(
        rt,
        crew,
        usize::from(all),
        &|_: usize, worker: &mut Worker|
            requires { (board.now.lanes ≡ 16) × (worker.now.seat.board ≡ board.now.board) × (worker.now.seat.view.has ≡ []) }
            ensures { (worker.exit.now.seat.board ≡ board.entry.now.board) × (worker.exit.now.seat.view.has ≡ []) }
        { work(board, worker, u64::from(all)) },
    );
}

fn make_crew(
    alloc: Global,
    board: &Board<Held>,
    first: &mut Seat<Held>,
    all: u8,
) -> Result<Vec<Worker>, AllocError>
    requires board { first.old.board ≡ board.now.board }
    requires leads { (first.old.view.leads ≡ true) × (first.old.view.out ≡ 0) × (first.old.view.has ≡ []) }
    requires all { 0 < all }
    ensures board { first.new.board ≡ board.now.board }
    ensures leads { (first.new.view.leads ≡ true) × (first.new.view.has ≡ []) }
    ensures out { IfOk result (λ crew. first.new.view.out ≡ length crew.items) }
    ensures crew { IfOk result (λ crew. All (λ w. (w.seat.board ≡ board.now.board) × (w.seat.view.has ≡ [])) crew.items) }
{
    let mut crew = Vec::new(alloc);
    for _ in 0..all {
        let drawn = Vec::from_elem(alloc, 0u64, TICKETS / usize::from(all))?;
        crew.push(Worker {
            seat: board.split(first),
            drawn,
            taken: 0,
            met: false,
        })?;
    }
    Ok(crew)
}

fn join_all(board: &Board<Held>, first: &mut Seat<Held>, crew: Vec<Worker>)
    requires board { first.old.board ≡ board.now.board }
    requires leads { (first.old.view.leads ≡ true) × (first.old.view.has ≡ []) }
    requires out { first.old.view.out ≡ length crew.items }
    requires crew { All (λ w. (w.seat.board ≡ board.now.board) × (w.seat.view.has ≡ [])) crew.items }
    ensures board { first.new.board ≡ board.now.board }
    ensures leads { (first.new.view.leads ≡ true) × (first.new.view.out ≡ 0) × (first.new.view.has ≡ []) }
{
    let mut crew = crew;
    while let Some(worker) = crew.pop() {
        let Worker { seat, .. } = worker;
        board.join(first, seat);
    }
}

fn mark(marks: &mut [bool], drawn: &[u64]) -> bool {
    for ticket in drawn {
        let at = *ticket as usize;
        if at >= marks.len() || marks[at] {
            return false;
        }
        marks[at] = true;
    }
    true
}

// Whether the tickets of all are the numbers below `TICKETS`, each once.
fn is_each_once(marks: &mut [bool], crew: &[Worker]) -> bool {
    for worker in crew {
        if !mark(marks, &worker.drawn) {
            return false;
        }
    }
    marks.iter().all(|m| *m)
}

fn taken_by(crew: &[Worker]) -> u64 {
    let mut taken: u64 = 0;
    for worker in crew {
        taken = taken.wrapping_add(worker.taken);
    }
    taken
}

fn run<R: Threads + Sync>(rt: &R, alloc: Global, all: u8) -> Result<Told, AllocError>
    requires { 0 < all }
{
    let source = Held { slot: 0, taken: 7 };
    let outlet = Held { slot: 1, taken: 0 };
    let Ok((board, mut first)) = Board::new(alloc, LANES, source, outlet) else {
        return Err(AllocError);
    };
    let mut marks = Vec::from_elem(alloc, false, TICKETS)?;
    let mut crew = make_crew(alloc, &board, &mut first, all)?;
    run_all(rt, &board, crew.as_mut_slice(), all);
    let once = is_each_once(marks.as_mut_slice(), crew.as_slice());
    let met = crew.iter().all(|worker| worker.met);
    let taken = taken_by(crew.as_slice());
    join_all(&board, &mut first, crew);
    let raised = board.seen(&mut first, 5);
    let (source, outlet) = board.close(first);
    Ok(Told {
        once,
        raised,
        met,
        taken,
        counted: outlet.taken,
        source: source.taken,
    })
}

#[test]
fn threads_draw_each_ticket_once(rt: HostRuntime) -> Result<(), Fail> {
    for all in [1, 2, 4, 16u8] {
        let told = run(&rt, rt.alloc(), all)?;
        assert!(rt; told.once && told.met, "with {all} threads");
        assert_eq!(rt; told.raised, TICKETS as u64, "with {all} threads");
        assert_eq!(rt; told.taken, told.counted, "with {all} threads");
        assert!(rt; told.taken > 0 && told.source == 7, "with {all} threads");
    }
    Ok(())
}

// A board of so many lanes; those with these numbers are raised, the last one twice.
fn raises(alloc: Global, lanes: u8, lower: u8) -> Option<(u64, u64, u64)>
    requires lower { (0 < lower) × (lower + 1 < lanes) }
{
    let source = Held { slot: 0, taken: 7 };
    let outlet = Held { slot: 1, taken: 0 };
    let Ok((board, mut first)) = Board::new(alloc, lanes, source, outlet) else {
        return None;
    };
    board.raise(&mut first, lower);
    board.raise(&mut first, lanes - 1);
    board.raise(&mut first, lanes - 1);
    let seen = (
        board.seen(&mut first, 0),
        board.seen(&mut first, lower),
        board.seen(&mut first, lanes - 1),
    );
    board.close(first);
    Some(seen)
}

#[test]
fn boards_of_many_lanes(rt: HostRuntime) {
    assert_eq!(rt; raises(rt.alloc(), 101, 78), Some((0, 1, 2)));
    assert_eq!(rt; raises(rt.alloc(), 211, 128), Some((0, 1, 2)));
    assert_eq!(rt; raises(rt.alloc(), 255, 253), Some((0, 1, 2)));
}

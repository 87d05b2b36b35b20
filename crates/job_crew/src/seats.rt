//! The seats of the workers.

ghost use Rattle.std.specs.Prelude.{◌≡◌, [], true, length, All};
ghost use Rattle.job_crew.specs.Code.{IsSeated};

use crate::jobs::{Output, Start, Window};
use crate::outlet::Placed;
use job_order::Meaning;
use progress_board::{Board, Seat};
use std::alloc::Global;

/// A seat for each worker, as far as there is memory.
pub(crate) fn make_seats<X: Drop, M: Meaning<X> + Start, K: Output<X>, W: Window>(
    alloc: Global,
    board: &Board<Placed<X, M, K, W>>,
    first: &mut Seat<Placed<X, M, K, W>>,
    workers: u8,
) -> Vec<Seat<Placed<X, M, K, W>>>
    requires board { first.old.board ≡ board.now.board }
    requires leads { (first.old.view.leads ≡ true) × (first.old.view.out ≡ 0) × (first.old.view.has ≡ []) }
    ensures board { first.new.board ≡ board.now.board }
    ensures leads { (first.new.view.leads ≡ true) × (first.new.view.has ≡ []) }
    ensures out { first.new.view.out ≡ length result.items }
    ensures seats { All (λ s. IsSeated board.now s) result.items }
{
    let mut seats = Vec::new(alloc);
    for _ in 0..workers {
        if seats.reserve(1).is_err() {
            break;
        }
        seats.push_reserved(board.split(first));
    }
    seats
}

/// Each seat is given back to the first one.
pub(crate) fn join_all<X: Drop, M: Meaning<X> + Start, K: Output<X>, W: Window>(
    board: &Board<Placed<X, M, K, W>>,
    first: &mut Seat<Placed<X, M, K, W>>,
    seats: Vec<Seat<Placed<X, M, K, W>>>,
)
    requires board { first.old.board ≡ board.now.board }
    requires leads { (first.old.view.leads ≡ true) × (first.old.view.has ≡ []) }
    requires out { first.old.view.out ≡ length seats.items }
    requires seats { All (λ s. IsSeated board.now s) seats.items }
    ensures board { first.new.board ≡ board.now.board }
    ensures leads { (first.new.view.leads ≡ true) × (first.new.view.out ≡ 0) × (first.new.view.has ≡ []) }
{
    let mut seats = seats;
    while let Some(seat) = seats.pop() {
        board.join(first, seat);
    }
}

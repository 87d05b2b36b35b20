ghost use Rattle.std.specs.Prelude.{◌≡◌, ◌+◌, ◌<◌, true, [], ◌∷◌, IfOk, IfErr, IfSome, IfNone, Some};
ghost use Rattle.progress_board.specs.Code.{Draws, Looks};
ghost use Rattle.progress_board.specs.Views.{opener, with_raise, with_slots, one_more_out, newcomer, joined};

use crate::rule::{Crew, Draw, Give, Look, Raise, Rule, Take};
use crate::seat::Seat;
use crate::slot::InSlot;
use crate::view::View;
use atomic_table::Table;
use std::alloc::Global;
use std::marker::Model;

// The words of a board: the tickets', the turns of the slots, one for each lane.
const TICKETS: usize = 0;

const FIRST_TURN: usize = 1;

const FIRST_LANE: usize = 3;

/// Words and slots that any number of threads share, each by a seat of its own. Contracts see which board it is, and how
/// many lanes it has.
#[derive(Drop)]
pub struct Board<T: InSlot> {
    table: Table<Option<T>, View, u8, Rule, Global>,
}

impl<T: InSlot> Model for Board<T> {
    ghost use Rattle.std.specs.Prelude.{◌≡◌, ◌+◌};
    ghost use Rattle.progress_board.specs.Code.{BoardParts};

    ghost Value = { BoardParts };

    ghost view = { λ b. record { board = b.table.shared.table_id; lanes = b.table.shared.key } };

    ghost invariant = { λ b. (b.table.shared.table_id.words ≡ b.table.shared.key + 3) × (b.table.shared.table_id.slots ≡ 2) };
}

/// There was no memory for a board. What was to lie in its slots comes back.
#[derive(Drop)]
pub struct Refused<T> {
    pub source: T,
    pub outlet: T,
}

impl<T: InSlot> Board<T> {
    /// A board with so many lanes and these values in its slots, and its first seat.
    pub fn new(
        alloc: Global,
        lanes: u8,
        source: T,
        outlet: T,
    ) -> Result<(Board<T>, Seat<T>), Refused<T>>
        requires source { T.names source ≡ 0 }
        requires outlet { T.names outlet ≡ 1 }
        ensures board { IfOk result (λ r. (r.0.lanes ≡ lanes) × (r.1.board ≡ r.0.board)) }
        ensures seat { IfOk result (λ r. r.1.view ≡ opener) }
        ensures refused { IfErr result (λ r. (r.source ≡ source) × (r.outlet ≡ outlet)) }
    {
        let Ok(words) = Vec::from_elem(alloc, 0, usize::from(lanes) + FIRST_LANE) else {
            return Err(Refused { source, outlet });
        };
        let mut slots = Vec::new(alloc);
        if slots.reserve(2).is_err() {
            slots.destroy_empty();
            return Err(Refused { source, outlet });
        }
        slots.push_reserved(Some(source));
        slots.push_reserved(Some(outlet));
        match Table::new(alloc, words.as_slice(), slots, &lanes) {
            Ok((table, token)) => Ok((Board { table }, Seat { token })),
            Err(refused) => Err(given_back(refused.slots)),
        }
    }

    /// Draws a ticket. The answer is the ticket's number, which is the number of tickets drawn before it, modulo 2^64.
    pub fn draw(&self, seat: &mut Seat<T>) -> u64
        requires { seat.old.board ≡ self.now.board }
        ensures board { seat.new.board ≡ seat.old.board }
        ensures drawn { Draws seat.old.view result seat.new.view }
    {
        self.table
            .shared
            .fetch_add::<Draw>(&mut seat.token, TICKETS, 1)
    }

    /// Raises a lane by 1.
    pub fn raise(&self, seat: &mut Seat<T>, lane: u8)
        requires board { seat.old.board ≡ self.now.board }
        requires lane { lane < self.now.lanes }
        ensures board { seat.new.board ≡ seat.old.board }
        ensures raised { seat.new.view ≡ with_raise seat.old.view lane }
    {
        self.table
            .shared
            .fetch_add::<Raise>(&mut seat.token, usize::from(lane) + FIRST_LANE, 1);
    }

    /// How often a lane was raised so far, modulo 2^64.
    pub fn seen(&self, seat: &mut Seat<T>, lane: u8) -> u64
        requires board { seat.old.board ≡ self.now.board }
        requires lane { lane < self.now.lanes }
        ensures board { seat.new.board ≡ seat.old.board }
        ensures seen { Looks lane seat.old.view result seat.new.view }
    {
        self.table
            .shared
            .load::<Look>(&mut seat.token, usize::from(lane) + FIRST_LANE)
    }

    /// Takes what lies in a slot, or nothing where it is out. A seat has one slot at a time.
    pub fn take(&self, seat: &mut Seat<T>, slot: u8) -> Option<T>
        requires board { seat.old.board ≡ self.now.board }
        requires slot { slot < 2 }
        requires free { seat.old.view.has ≡ [] }
        ensures board { seat.new.board ≡ seat.old.board }
        ensures names { IfSome result (λ y. T.names y ≡ slot) }
        ensures taken { IfSome result (λ _. seat.new.view ≡ with_slots seat.old.view (slot ∷ [])) }
        ensures out { IfNone result (seat.new.view ≡ with_slots seat.old.view []) }
    {
        let word = usize::from(slot) + FIRST_TURN;
        let found = self.table.shared.swap::<Take>(&mut seat.token, word, 1);
        if found == 0 {
            self.table
                .shared
                .exchange(&mut seat.token, usize::from(slot), None)
        } else {
            None
        }
    }

    /// Gives the slot back that the seat has.
    pub fn give(&self, seat: &mut Seat<T>, slot: u8, value: T)
        requires board { seat.old.board ≡ self.now.board }
        requires slot { slot < 2 }
        requires taken { seat.old.view.has ≡ slot ∷ [] }
        requires value { T.names value ≡ slot }
        ensures board { seat.new.board ≡ seat.old.board }
        ensures given { seat.new.view ≡ with_slots seat.old.view [] }
    {
        let old = self
            .table
            .shared
            .exchange(&mut seat.token, usize::from(slot), Some(value));
        let None = old else { unreachable!() };
        self.table
            .shared
            .swap::<Give>(&mut seat.token, usize::from(slot) + FIRST_TURN, 0);
    }

    /// A new seat, split off the first one.
    pub fn split(&self, seat: &mut Seat<T>) -> Seat<T>
        requires board { seat.old.board ≡ self.now.board }
        requires leads { seat.old.view.leads ≡ true }
        ensures board { (seat.new.board ≡ seat.old.board) × (result.board ≡ seat.old.board) }
        ensures first { seat.new.view ≡ one_more_out seat.old.view }
        ensures other { result.view ≡ newcomer seat.old.view }
    {
        let token = self.table.shared.split_seat::<Crew>(&mut seat.token);
        Seat { token }
    }

    /// Takes a seat back that was split off the first one, with its tickets and raises.
    pub fn join(&self, seat: &mut Seat<T>, other: Seat<T>)
        requires board { (seat.old.board ≡ self.now.board) × (other.board ≡ self.now.board) }
        requires leads { seat.old.view.leads ≡ true }
        requires free { other.view.has ≡ [] }
        ensures board { seat.new.board ≡ seat.old.board }
        ensures joined { seat.new.view ≡ joined seat.old.view other.view }
    {
        let Seat { token } = other;
        self.table.shared.join_seat::<Crew>(&mut seat.token, token);
    }

    /// Hands out what lies in the slots, the source's first. All seats are joined, and no slot is out.
    pub fn close(self, seat: Seat<T>) -> (T, T)
        requires board { seat.board ≡ self.board }
        requires leads { seat.view.leads ≡ true }
        requires joined { seat.view.out ≡ 0 }
        requires home { seat.view.has ≡ [] }
        ensures { (T.names result.0 ≡ 0) × (T.names result.1 ≡ 1) }
    {
        let Board { table } = self;
        let Seat { token } = seat;
        let mut closed = table.close_with(token);
        let source = closed.take(0);
        let outlet = closed.take(1);
        closed.free();
        let Some(source) = source else { unreachable!() };
        let Some(outlet) = outlet else { unreachable!() };
        (source, outlet)
    }
}

fn given_back<T>(mut slots: Vec<Option<T>>) -> Refused<T>
    requires { (a : T) × (b : T) × (slots.items ≡ Some a ∷ Some b ∷ []) }
    ensures { slots.items ≡ Some result.source ∷ Some result.outlet ∷ [] }
{
    let Some(Some(outlet)) = slots.pop() else {
        unreachable!()
    };
    let Some(Some(source)) = slots.pop() else {
        unreachable!()
    };
    slots.destroy_empty();
    Refused { source, outlet }
}

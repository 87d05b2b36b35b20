use crate::view::View;
use std::marker::Model;

/// A thread's place at a board. It has no bytes. Contracts see it as the board that it is of, and its view.
#[derive(Drop)]
pub struct Seat<T> {
    pub(crate) token: atomic_table::Seat<Option<T>, View>,
}

impl<T> Model for Seat<T> {
    ghost use Rattle.std.specs.Prelude.{◌≡◌};
    ghost use Rattle.progress_board.specs.Code.{SeatParts, hand};

    ghost Value = { SeatParts };

    ghost view = { λ s. record { board = s.token.table_id; view = s.token.me.0 } };

    ghost invariant = { λ s. (s.token.me.0.live ≡ 1) × (s.token.me.1 ≡ hand s.token.me.0.has) };
}

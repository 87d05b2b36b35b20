//! The rule that each step of a board keeps, and what each step tells its seat.

use crate::slot::InSlot;
use crate::view::View;
use atomic_table::{Join, Play, Split, TableRule};

pub(crate) struct Rule;

impl<T: InSlot> TableRule<Option<T>, View, u8> for Rule {
    ghost use Rattle.progress_board.specs.Rule.{Kept};
    ghost use Rattle.progress_board.specs.Views.{opener};

    ghost holds = { λ lanes s. Kept T.names lanes s };

    ghost first = { λ _. opener };
}

pub(crate) struct Draw;

impl<T> Play<Option<T>, View> for Draw {
    ghost use Rattle.progress_board.specs.Code.{Drew};

    ghost then = { Drew };
}

pub(crate) struct Raise;

impl<T> Play<Option<T>, View> for Raise {
    ghost use Rattle.progress_board.specs.Code.{Rose};

    ghost then = { Rose };
}

pub(crate) struct Look;

impl<T> Play<Option<T>, View> for Look {
    ghost use Rattle.progress_board.specs.Code.{Looked};

    ghost then = { Looked };
}

pub(crate) struct Take;

impl<T: InSlot> Play<Option<T>, View> for Take {
    ghost use Rattle.progress_board.specs.Code.{Took};

    ghost then = { Took T.names };
}

pub(crate) struct Give;

impl<T> Play<Option<T>, View> for Give {
    ghost use Rattle.progress_board.specs.Code.{Gave};

    ghost then = { Gave };
}

pub(crate) struct Crew;

impl Split<View> for Crew {
    ghost use Rattle.progress_board.specs.Views.{one_more_out, newcomer};

    ghost left = { one_more_out };

    ghost right = { newcomer };
}

impl Join<View> for Crew {
    ghost use Rattle.progress_board.specs.Views.{joined, spent};

    ghost both = { joined };

    ghost spent = { spent };
}

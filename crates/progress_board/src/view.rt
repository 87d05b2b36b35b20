use std::collections::LinkedList;

/// What a seat knows. It stands in contracts alone: no value of it is made, and its numbers have no bound.
#[derive(Drop)]
pub struct View {
    /// Whether it is the first seat of its board, which alone splits and joins.
    pub leads: bool,
    /// 1, and 0 once it was joined.
    pub live: u64,
    /// How many other seats are out; 0 for a seat that doesn't lead.
    pub out: u64,
    /// The slots that it has.
    pub has: LinkedList<u8>,
    /// The tickets that it drew, and those of the seats that it joined.
    pub drawn: LinkedList<u64>,
    /// The lanes that it raised, once for each raise.
    pub raised: LinkedList<u8>,
    /// What it saw: lanes, each with the number of its raises then.
    pub seen: LinkedList<(u8, u64)>,
    /// How often it loaded a lane.
    pub loads: u64,
    /// How often it swapped the turn of a slot.
    pub swaps: u64,
}

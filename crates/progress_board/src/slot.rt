ghost use Rattle.std.specs.Prelude.{◌≡◌, ℕ};

/// What lies in the slots of a board.
pub trait InSlot {
    /// Which slot it belongs in: 0 is the source's, 1 the outlet's.
    ghost names: { Self → ℕ };

    /// The slot.
    fn slot(&self) -> u8
        ensures { result ≡ names self.now };
}

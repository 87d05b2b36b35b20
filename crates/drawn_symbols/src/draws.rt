//! The numbers that are drawn.

ghost use Rattle.std.specs.Prelude.{◌≡◌, ◌<◌, ◌≤◌};
ghost use Rattle.drawn_symbols.specs.Draws.{next, draw, draw_flag, IsDrawn};

/// The number that the next draws come from.
#[derive(Clone, Copy, Debug, PartialEq, Eq)]
pub struct Draws {
    pub x: u64,
}

/// The number behind a number.
#[tactic(auto, unfolding(crate::specs::Draws::next))]
fn next(x: u64) -> u64
    ensures { result ≡ next x }
{
    x.wrapping_mul(6364136223846793005)
        .wrapping_add(1442695040888963407)
}

impl Draws {
    /// One of `n` values, from 0 on.
    #[tactic(auto, unfolding(crate::specs::Draws::draw))]
    pub fn draw(&mut self, n: u32) -> u32
        requires { 0 < n }
        ensures is { IsDrawn (draw n) self.old result self.new }
        ensures below { result < n }
    {
        self.x = next(self.x);
        (self.x >> 33) as u32 % n
    }

    /// A lone bool.
    #[tactic(auto, unfolding(crate::specs::Draws::draw_flag))]
    pub fn flag(&mut self) -> bool
        ensures { IsDrawn draw_flag self.old result self.new }
    {
        self.draw(2) == 1
    }
}

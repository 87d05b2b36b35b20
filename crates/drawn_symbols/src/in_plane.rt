//! The levels of the transform blocks of a block in a plane.

ghost use Rattle.std.specs.Prelude.{◌≡◌, ◌<◌, ℤ, pos, List, length};
ghost use Rattle.std.specs.List.{All};
ghost use Rattle.vp9_tables.specs.Scans.{area, scan_of};
ghost use Rattle.prob_contexts.specs.ProbLists.{ContextLists};
ghost use Rattle.coef_tokens.specs.TokenKinds.{block_tables};
ghost use Rattle.token_writer.specs.TokenFits.{CanPut};
ghost use Rattle.residue_syntax.specs.BlocksInPlanes.{token_kind, type_at};
ghost use Rattle.drawn_symbols.specs.LevelDraws.{draw_levels, placed_from};

use crate::draws::Draws;
use crate::levels::draw_levels;
use block_geometry::TransformPlace;
use residue_syntax::BlockInPlane;
use vp9_tables::scan;

/// Draws the levels of the transform block at a place, by position, and how many places of its scan are coded.
/// It begins inside its frame and isn't skipped, and its values are zeros before.
pub fn draw_levels_at(
    draws: &mut Draws,
    b: &BlockInPlane,
    at: TransformPlace,
    values: &mut [i32],
) -> u32
    requires down { at.row < 16 }
    requires across { at.column < 16 }
    requires long { length values.old ≡ area b.now.block.tx }
    requires zeros { All (λ v. v ≡ pos 0) values.old }
    ensures drawn { (levels : List ℤ) × (draw_levels draws.old.x ≡ (levels, draws.new.x)) × (values.new ≡ placed_from 0 (scan_of b.now.block.tx (type_at b.now at.row at.column)) levels values.old) × (result ≡ length levels) }
    ensures can { (contexts : ContextLists) → CanPut (block_tables contexts (token_kind b.now at.row at.column)) values.new result }
{
    let kind = b.token_kind(at.row, at.column);
    draw_levels(draws, scan(kind.tx, kind.kind), values)
}

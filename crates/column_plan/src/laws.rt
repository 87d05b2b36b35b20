//! Laws of the definitions, as contracts of functions that do nothing.

ghost use Rattle.std.specs.Prelude.{◌≡◌, ◌+◌, ◌++◌, ◌∷◌, [], ℕ, ℤ, List, length, map, drop, get_or, slice_range, nat_lt, if◌then◌else◌};
ghost use Rattle.vp9_types.specs.declared.shape.Shape.{Shape};
ghost use Rattle.block_plan.specs.declared.block.BlockInfo.{BlockInfo};
ghost use Rattle.block_plan.specs.declared.residues.BlockResidues.{BlockResidues};
ghost use Rattle.column_plan.specs.Code.{AreRowPlaces, block_pieces};
ghost use Rattle.column_plan.specs.PlannedBlocks.{planned_blocks, planned_from, total};
ghost use Rattle.column_plan.specs.PlanRows.{AreInOrder, in_row, place_of_row, planned_in_row};
ghost use Rattle.column_plan.specs.declared.rows.RowPlace.{RowPlace};

/// Blocks and the residues of their transform blocks, one behind another, stand for planned blocks: those of a part of them, as
/// of a row of superblocks, are found from the first of its residues on, and a block whose residues are added is one more.
pub fn plans_stand_for_their_blocks()
    ensures infos { (shape : Shape) (tile_from : ℕ) (blocks : List BlockInfo) (pieces : List (List ℤ)) →
        map (λ b. b.info) (planned_blocks shape tile_from blocks pieces) ≡ blocks }
    ensures parts { (shape : Shape) (tile_from : ℕ) (blocks more : List BlockInfo) (pieces : List (List ℤ)) →
        planned_blocks shape tile_from (blocks ++ more) pieces
        ≡ planned_blocks shape tile_from blocks pieces ++ planned_blocks shape tile_from more (drop (total shape blocks) pieces) }
    ensures one_more { (shape : Shape) (tile_from : ℕ) (blocks : List BlockInfo) (b : BlockInfo) (pieces more : List (List ℤ)) →
        total shape blocks ≡ length pieces →
        planned_blocks shape tile_from (blocks ++ b ∷ []) (pieces ++ more)
        ≡ planned_blocks shape tile_from blocks pieces ++ planned_from shape tile_from b more ∷ [] }
    ensures all { (shape : Shape) (blocks : List BlockInfo) (b : BlockInfo) (held : BlockResidues) (pieces : List (List ℤ)) →
        total shape blocks ≡ length pieces → total shape (blocks ++ b ∷ []) ≡ length (pieces ++ block_pieces shape b held) }
{}

/// The blocks of a row of superblocks, of a column whose rows follow one another, are those between the row's place and the next
/// one's, and their residues begin at its piece.
pub fn rows_lie_between_their_places()
    ensures blocks { (shape : Shape) (r : ℕ) (blocks : List BlockInfo) → AreInOrder blocks →
        slice_range blocks (place_of_row shape r blocks).block (place_of_row shape (r + 1) blocks).block ≡ in_row r blocks }
    ensures planned { (shape : Shape) (tile_from r : ℕ) (blocks : List BlockInfo) (pieces : List (List ℤ)) → AreInOrder blocks →
        planned_in_row r (planned_blocks shape tile_from blocks pieces)
        ≡ planned_blocks shape tile_from (in_row r blocks) (drop (place_of_row shape r blocks).piece pieces) }
    ensures noted { (shape : Shape) (blocks : List BlockInfo) (places : List RowPlace) (r : ℕ) (end : RowPlace) → AreRowPlaces shape blocks places →
        end ≡ record { block = length blocks; piece = total shape blocks } →
        (if nat_lt r (length places) then get_or places r end else end) ≡ place_of_row shape r blocks }
{}

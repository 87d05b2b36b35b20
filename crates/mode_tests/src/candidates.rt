//! Candidates of drawn blocks, as tools/vectors.py candidates lists them.

ghost use Rattle.std.specs.Prelude.{◌≡◌, ◌<◌, ◌≤◌, ◌+◌, [], IfSome};
ghost use Rattle.std.specs.List.{All};
ghost use Rattle.std.specs.Option.{option_copied};
ghost use Rattle.mv_prediction.specs.Code.{HasSmallVectors, AreSmall, IsSite, blocks_of};

use crate::drawn_blocks::{FROM, ROWS, TO, add_blocks, drawn_size, drawn_vector};
use block_geometry::{FramePlaces, is_below_8x8};
use block_plan::{BlockAt, BlockGrid, Mv};
use mv_prediction::{
    MvSearch, NearVectors, SignBiases, candidates, mode_context, near_vectors, sub_block_vectors,
};
use std::alloc::{AllocError, Global};
use std::test::Fail;
use test_draws::{Digest, Draws};
use vp9_types::ReferenceFrame;

const PLACES: FramePlaces = FramePlaces { rows: 20, cols: 30 };

fn add_vector(digest: &mut Digest, v: Mv) {
    digest.add_signed(v.row);
    digest.add_signed(v.column);
}

fn add_both(digest: &mut Digest, near: NearVectors) {
    add_vector(digest, near.nearest);
    add_vector(digest, near.near);
}

fn add_quarters(
    digest: &mut Digest,
    search: &MvSearch,
    reference: ReferenceFrame,
    quarters: &[Mv; 3],
    grid: &BlockGrid,
    before: Option<&BlockGrid>,
)
    requires site { IsSite search.now }
    requires tile { (grid.now.rows ≡ 20) × (grid.now.from ≡ 8) × (grid.now.to ≡ 24) }
    requires places { (search.now.places.rows ≡ 20) × (search.now.places.cols ≡ 30) }
    requires columns { (search.now.at.tile_from ≡ 8) × (search.now.at.tile_to ≡ 24) }
    requires before { IfSome (option_copied before) (λ g. (g.rows ≡ 20) × (g.from ≡ 8) × (g.to ≡ 24)) }
    requires small { All HasSmallVectors grid.now.blocks }
    requires small_before { All HasSmallVectors (blocks_of (λ g. g.blocks) (option_copied before)) }
    requires quarters { AreSmall quarters.now }
{
    for sub in 0..4u8 {
        let two = candidates(search, reference, Some(sub), grid, before);
        add_both(digest, sub_block_vectors(sub, &two, quarters));
    }
}

fn add_reference(
    digest: &mut Digest,
    draws: &mut Draws,
    search: &MvSearch,
    high_and_reference: (bool, ReferenceFrame),
    grid: &BlockGrid,
    before: Option<&BlockGrid>,
)
    requires site { IsSite search.now }
    requires tile { (grid.now.rows ≡ 20) × (grid.now.from ≡ 8) × (grid.now.to ≡ 24) }
    requires places { (search.now.places.rows ≡ 20) × (search.now.places.cols ≡ 30) }
    requires columns { (search.now.at.tile_from ≡ 8) × (search.now.at.tile_to ≡ 24) }
    requires before { IfSome (option_copied before) (λ g. (g.rows ≡ 20) × (g.from ≡ 8) × (g.to ≡ 24)) }
    requires small { All HasSmallVectors grid.now.blocks }
    requires small_before { All HasSmallVectors (blocks_of (λ g. g.blocks) (option_copied before)) }
{
    let (high, reference) = high_and_reference;
    let two = candidates(search, reference, None, grid, before);
    add_vector(digest, two[0]);
    add_vector(digest, two[1]);
    add_both(digest, near_vectors(high, &two));
    if is_below_8x8(search.at.size) {
        let quarters = [
            drawn_vector(draws),
            drawn_vector(draws),
            drawn_vector(draws),
        ];
        add_quarters(digest, search, reference, &quarters, grid, before);
    }
}

fn add_site(digest: &mut Digest, draws: &mut Draws, grid: &BlockGrid, before: Option<&BlockGrid>)
    requires tile { (grid.now.rows ≡ 20) × (grid.now.from ≡ 8) × (grid.now.to ≡ 24) }
    requires before { IfSome (option_copied before) (λ g. (g.rows ≡ 20) × (g.from ≡ 8) × (g.to ≡ 24)) }
    requires small { All HasSmallVectors grid.now.blocks }
    requires small_before { All HasSmallVectors (blocks_of (λ g. g.blocks) (option_copied before)) }
{
    let at = BlockAt {
        row: draws.below(ROWS),
        col: FROM + draws.below(TO - FROM),
        size: drawn_size(draws),
        tile_from: FROM,
        tile_to: TO,
    };
    let biases = SignBiases {
        last: draws.below(2) == 1,
        golden: draws.below(2) == 1,
        altref: draws.below(2) == 1,
    };
    let search = MvSearch {
        places: PLACES,
        biases,
        at,
    };
    let high = draws.below(2) == 1;
    digest.add_signed(i16::from(mode_context(&search, grid)));
    add_reference(
        digest,
        draws,
        &search,
        (high, ReferenceFrame::Last),
        grid,
        before,
    );
    add_reference(
        digest,
        draws,
        &search,
        (high, ReferenceFrame::Golden),
        grid,
        before,
    );
    add_reference(
        digest,
        draws,
        &search,
        (high, ReferenceFrame::Altref),
        grid,
        before,
    );
}

/// Sites between which blocks are added.
fn add_sites(
    digest: &mut Digest,
    draws: &mut Draws,
    grid: &mut BlockGrid,
    before: Option<&BlockGrid>,
)
    requires room { 40 ≤ grid.old.room }
    requires tile { (grid.old.rows ≡ 20) × (grid.old.from ≡ 8) × (grid.old.to ≡ 24) }
    requires before { IfSome (option_copied before) (λ g. (g.rows ≡ 20) × (g.from ≡ 8) × (g.to ≡ 24)) }
    requires small { All HasSmallVectors grid.old.blocks }
    requires small_before { All HasSmallVectors (blocks_of (λ g. g.blocks) (option_copied before)) }
{
    for i in 0..40usize {
        add_site(digest, draws, grid, before);
        add_blocks(grid, draws, 1);
        prove!(i < 40);
    }
}

fn digest_of(alloc: Global, seed: u32, uses_before: bool) -> Result<u32, AllocError> {
    let mut draws = Draws::new(seed);
    let mut before = BlockGrid::new(alloc, ROWS, FROM, TO, 12)?;
    add_blocks(&mut before, &mut draws, 12);
    let mut grid = BlockGrid::new(alloc, ROWS, FROM, TO, 40)?;
    let mut digest = Digest::new();
    if uses_before {
        add_sites(&mut digest, &mut draws, &mut grid, Some(&before));
    } else {
        add_sites(&mut digest, &mut draws, &mut grid, None);
    }
    Ok(digest.sum_32())
}

#[test]
fn drawn_blocks(rt: HostRuntime) -> Result<(), Fail> {
    assert_eq!(rt; digest_of(rt.alloc(), 1, true)?, 3927541404);
    assert_eq!(rt; digest_of(rt.alloc(), 2, false)?, 3685514704);
    assert_eq!(rt; digest_of(rt.alloc(), 3, true)?, 4016152828);
    Ok(())
}

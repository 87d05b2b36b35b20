//! What no clause says: that there is memory for pictures of real sizes, and that it is used again.

ghost use Rattle.std.specs.Prelude.{◌≡◌};

use picture_table::PictureTable;
use planes::Picture;
use std::test::Fail;
use vp9_types::{Depth, Plane, Shape};

fn shape_of(w: u32, h: u32, depth: Depth) -> Shape
    ensures w { result.w ≡ w }
    ensures h { result.h ≡ h }
{
    Shape {
        w,
        h,
        depth,
        ss_x: true,
        ss_y: false,
    }
}

#[test]
fn pictures_have_memory(rt: HostRuntime) -> Result<(), Fail> {
    let mut picture: Picture<u16> = Picture::new(rt.alloc(), shape_of(352, 288, Depth::Ten))?;
    for (w, h) in [(352, 288), (130, 132), (1, 65536), (1920, 1080)] {
        picture.renew(rt.alloc(), shape_of(w, h, Depth::Ten))?;
        assert_eq!(rt; picture.shape().h, h);
        assert_eq!(rt;
            picture.plane(Plane::Y).area().rows,
            (h as usize).div_ceil(8) * 8
        );
    }
    Ok(())
}

#[test]
fn a_picture_that_no_slot_names_is_used_again(rt: HostRuntime) -> Result<(), Fail> {
    let mut table = PictureTable::new(rt.alloc());
    let first = table.blank(rt.alloc(), shape_of(64, 64, Depth::Ten))?;
    let second = table.blank(rt.alloc(), shape_of(8, 8, Depth::Twelve))?;
    let third = table.blank(rt.alloc(), shape_of(8, 8, Depth::Eight))?;
    assert_eq!(rt; (first, first), (second, third));
    assert_eq!(rt; table.pictures.len(), 1);
    Ok(())
}

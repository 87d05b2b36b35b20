//! A picture, whatever it keeps a sample as.

ghost use Rattle.std.specs.Prelude.{◌≡◌, IfOk, IsOk, OnOk, OnErr};
ghost use Rattle.planes.specs.Pictures.{FitsPlanes};
ghost use Rattle.std.specs.Option.{option_copied};
ghost use Rattle.picture_table.specs.KeptPictures.{HasRoomFor, IsBlankAs, IsSound, IsThere, KeepInBytes, KeepInWords, depth_of};

use planes::Picture;
use std::alloc::{AllocError, Global};
use vp9_types::{Depth, Sample, Shape};

/// A picture, by what it keeps a sample as: one byte where the depth is 8, else two.
#[derive(Drop)]
pub enum AnyPicture {
    Bytes(Picture<u8>),
    Words(Picture<u16>),
}

impl AnyPicture {
    /// A picture of zeros.
    pub fn new(alloc: Global, shape: Shape) -> Result<AnyPicture, AllocError>
        requires { FitsPlanes shape }
        ensures { IfOk result (IsBlankAs shape) }
    {
        match shape.depth {
            Depth::Eight => Ok(AnyPicture::Bytes(Picture::new(alloc, shape)?)),
            Depth::Ten | Depth::Twelve => Ok(AnyPicture::Words(Picture::new(alloc, shape)?)),
        }
    }

    /// A picture of no samples, which needs no memory: it keeps the place of one that is lent out.
    pub fn none(alloc: Global) -> AnyPicture {
        AnyPicture::Bytes(Picture::none(alloc))
    }

    /// Makes this a picture of zeros of another shape. Where sizes and depth are the same it needs no memory, and if there is
    /// not enough it stays as it was.
    pub fn renew(&mut self, alloc: Global, shape: Shape) -> Result<(), AllocError>
        requires { FitsPlanes shape }
        ensures blank { OnOk result (IsBlankAs shape self.new) }
        ensures kept { OnErr result (self.new ≡ self.old) }
        ensures again { HasRoomFor shape self.old → IsOk result }
    {
        match (&mut *self, shape.depth) {
            (AnyPicture::Bytes(picture), Depth::Eight) => picture.renew(alloc, shape),
            (AnyPicture::Words(picture), Depth::Ten | Depth::Twelve) => picture.renew(alloc, shape),
            _ => {
                *self = AnyPicture::new(alloc, shape)?;
                Ok(())
            }
        }
    }
}

/// What pictures of some depths keep a sample as.
pub trait PictureSample: Sample {
    ghost use Rattle.vp9_types.specs.declared.shape.Depth.{Depth};

    /// Whether pictures of this depth do.
    ghost keeps: { Depth → Type 0 };

    /// The picture as one that keeps samples so, if it does.
    fn picture_of(picture: &AnyPicture) -> Option<&Picture<Self>>
        ensures { IsSound picture.now → keeps (depth_of picture.now) → IsThere picture.now (option_copied result) };
}

impl PictureSample for u8 {
    ghost keeps = { λ depth. KeepInBytes depth };

    fn picture_of(picture: &AnyPicture) -> Option<&Picture<u8>> {
        match picture {
            AnyPicture::Bytes(picture) => Some(picture),
            AnyPicture::Words(_) => None,
        }
    }
}

impl PictureSample for u16 {
    ghost keeps = { λ depth. KeepInWords depth };

    fn picture_of(picture: &AnyPicture) -> Option<&Picture<u16>> {
        match picture {
            AnyPicture::Bytes(_) => None,
            AnyPicture::Words(picture) => Some(picture),
        }
    }
}

ghost use Rattle.std.specs.Prelude.{◌≡◌, ◌≤◌};
ghost use Rattle.vp9_types.specs.Shapes.{depth_bits, halved, subsampled_size};
ghost use Rattle.vp9_types.specs.Sizes.{greatest};

/// Bits of a sample.
#[derive(Clone, Copy, Debug, PartialEq, Eq)]
pub enum Depth {
    Eight,
    Ten,
    Twelve,
}

impl Depth {
    /// The number of bits: 8, 10 or 12.
    pub fn bits(self) -> u8
        ensures { result ≡ depth_bits self }
    {
        match self {
            Depth::Eight => 8,
            Depth::Ten => 10,
            Depth::Twelve => 12,
        }
    }

    /// The greatest sample.
    pub fn greatest(self) -> u16
        ensures value { result ≡ greatest self }
        ensures small { result ≤ 4095 }
    {
        match self {
            Depth::Eight => 255,
            Depth::Ten => 1023,
            Depth::Twelve => 4095,
        }
    }
}

/// The planes of a frame: luma, and the two of chroma.
#[derive(Clone, Copy, Debug, PartialEq, Eq)]
pub enum Plane {
    Y,
    U,
    V,
}

/// The shape of a frame: width and height of luma, 1 to 65536 in a VP9 file; the depth of its samples; and whether
/// chroma is subsampled by 2 in x and in y.
#[derive(Clone, Copy, Debug, PartialEq, Eq)]
pub struct Shape {
    pub w: u32,
    pub h: u32,
    pub depth: Depth,
    pub ss_x: bool,
    pub ss_y: bool,
}

impl Shape {
    ghost use Rattle.vp9_types.specs.Shapes.{
      bands_of,
      coded_height,
      coded_width,
      mi_cols,
      mi_rows,
      plane_height,
      plane_width,
    };
    ghost use Rattle.vp9_types.specs.Sizes.{superblocks_along};

    /// Width and height of a plane, in samples.
    pub fn plane_size(&self, plane: Plane) -> (u32, u32)
        ensures width { result.0 ≡ plane_width self.now plane }
        ensures height { result.1 ≡ plane_height self.now plane }
    {
        match plane {
            Plane::Y => (self.w, self.h),
            Plane::U | Plane::V => (subsampled(self.w, self.ss_x), subsampled(self.h, self.ss_y)),
        }
    }

    /// The rows of places of 8x8 luma samples: MiRows (7.2.6).
    #[inline(always)]
    pub fn place_rows(&self) -> u32
        ensures { result ≡ mi_rows self.now }
    {
        self.h.div_ceil(8)
    }

    /// The columns of places of 8x8 luma samples: MiCols (7.2.6).
    #[inline(always)]
    pub fn place_cols(&self) -> u32
        ensures { result ≡ mi_cols self.now }
    {
        self.w.div_ceil(8)
    }

    /// The rows of superblocks.
    #[inline(always)]
    pub fn superblock_rows(&self) -> u32
        ensures { result ≡ superblocks_along (mi_rows self.now) }
    {
        self.place_rows().div_ceil(8)
    }

    /// The columns of superblocks.
    #[inline(always)]
    pub fn superblock_cols(&self) -> u32
        ensures { result ≡ superblocks_along (mi_cols self.now) }
    {
        self.place_cols().div_ceil(8)
    }

    /// Width and height of what is decoded of a plane: its samples in the places of 8x8 luma samples.
    #[inline(always)]
    pub fn coded_size(&self, plane: Plane) -> (usize, usize)
        ensures width { result.0 ≡ coded_width self.now plane }
        ensures height { result.1 ≡ coded_height self.now plane }
    {
        let (w, h) = (
            8 * self.place_cols() as usize,
            8 * self.place_rows() as usize,
        );
        match plane {
            Plane::Y => (w, h),
            Plane::U | Plane::V => (halved(self.ss_x, w), halved(self.ss_y, h)),
        }
    }

    /// The number of bands of 64 luma rows, the last of which may have fewer.
    pub fn bands(&self) -> u32
        ensures { result ≡ bands_of self.now }
    {
        self.h.div_ceil(64)
    }
}

fn subsampled(size: u32, halved: bool) -> u32
    ensures { result ≡ subsampled_size size halved }
{
    if halved { size.div_ceil(2) } else { size }
}

/// A length in a plane, from that in luma, where that is a multiple of 2.
#[inline(always)]
pub fn halved(ss: bool, n: usize) -> usize
    ensures { result ≡ halved ss n }
{
    if ss { n / 2 } else { n }
}

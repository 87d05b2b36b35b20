ghost use Rattle.std.specs.Prelude.{◌≡◌};
ghost use Rattle.vp9_types.specs.Rules.{rule_number, rule_name, rule_text};

use std::error::Error;
use std::fmt;

/// The rules of VP9 that a file can break. Their numbers and names are part of the product.
#[derive(Clone, Copy, Debug, PartialEq, Eq)]
pub enum Rule {
    /// An IVF file doesn't begin with `DKIF`.
    IvfSignature,
    /// An IVF file header is cut short, or says that it is shorter than 32 bytes.
    IvfHeader,
    /// An IVF file holds another codec than VP9.
    IvfCodec,
    /// An IVF packet is cut short.
    IvfTruncated,
    /// The sizes of a superframe index don't fit into its payload.
    SuperframeSizes,
    /// A field of a frame's header reaches past the frame.
    HeaderTruncated,
    /// A frame doesn't begin with the frame marker.
    FrameMarker,
    /// A reserved bit is set.
    ReservedBit,
    /// A frame sync code is wrong.
    SyncCode,
    /// A colour configuration that the profile doesn't have.
    ColourConfig,
    /// A frame shows an empty reference slot.
    ShowMissing,
    /// A frame refers to an empty reference slot.
    RefMissing,
    /// A reference has another depth or subsampling than the frame.
    RefFormat,
    /// No reference is within the range of scaling.
    RefScale,
    /// The compressed header has no bytes.
    HeaderSizeZero,
    /// The compressed header reaches past the frame.
    HeaderSizeLong,
    /// Arithmetic-coded data has no bytes.
    BoolEmpty,
    /// The marker bit of arithmetic-coded data is set.
    BoolMarker,
    /// A tile's size reaches past the frame.
    TileSize,
    /// A block refers to a reference outside of the range of scaling.
    BlockScale,
    /// A motion vector is too long.
    MvRange,
    /// A dequantised coefficient is too large.
    CoefRange,
    /// A value in an inverse transform is too large.
    TransformRange,
    /// An element of a WebM file isn't spelled as one, or reaches past its parent.
    WebmElement,
    /// A WebM file has no track of VP9 before its first cluster.
    WebmTrack,
    /// A block of a WebM file is laced.
    WebmLacing,
    /// The track of a WebM file is encoded once more.
    WebmEncoding,
    /// A shown frame has another shape than the first, and the output can't say so.
    OutputShape,
}

impl Rule {
    /// The rule's number, 1 to 23 and 25 to 29.
    pub fn number(self) -> u8
        ensures { result ≡ rule_number self }
    {
        match self {
            Rule::IvfSignature => 1,
            Rule::IvfHeader => 2,
            Rule::IvfCodec => 3,
            Rule::IvfTruncated => 4,
            Rule::SuperframeSizes => 5,
            Rule::HeaderTruncated => 6,
            Rule::FrameMarker => 7,
            Rule::ReservedBit => 8,
            Rule::SyncCode => 9,
            Rule::ColourConfig => 10,
            Rule::ShowMissing => 11,
            Rule::RefMissing => 12,
            Rule::RefFormat => 13,
            Rule::RefScale => 14,
            Rule::HeaderSizeZero => 15,
            Rule::HeaderSizeLong => 16,
            Rule::BoolEmpty => 17,
            Rule::BoolMarker => 18,
            Rule::TileSize => 19,
            Rule::BlockScale => 20,
            Rule::MvRange => 21,
            Rule::CoefRange => 22,
            Rule::TransformRange => 23,
            Rule::WebmElement => 25,
            Rule::WebmTrack => 26,
            Rule::WebmLacing => 27,
            Rule::WebmEncoding => 28,
            Rule::OutputShape => 29,
        }
    }

    /// The rule's name, in one word.
    pub fn name(self) -> &'static str
        ensures { result.now ≡ rule_name self }
    {
        match self {
            Rule::IvfSignature => "IvfSignature",
            Rule::IvfHeader => "IvfHeader",
            Rule::IvfCodec => "IvfCodec",
            Rule::IvfTruncated => "IvfTruncated",
            Rule::SuperframeSizes => "SuperframeSizes",
            Rule::HeaderTruncated => "HeaderTruncated",
            Rule::FrameMarker => "FrameMarker",
            Rule::ReservedBit => "ReservedBit",
            Rule::SyncCode => "SyncCode",
            Rule::ColourConfig => "ColourConfig",
            Rule::ShowMissing => "ShowMissing",
            Rule::RefMissing => "RefMissing",
            Rule::RefFormat => "RefFormat",
            Rule::RefScale => "RefScale",
            Rule::HeaderSizeZero => "HeaderSizeZero",
            Rule::HeaderSizeLong => "HeaderSizeLong",
            Rule::BoolEmpty => "BoolEmpty",
            Rule::BoolMarker => "BoolMarker",
            Rule::TileSize => "TileSize",
            Rule::BlockScale => "BlockScale",
            Rule::MvRange => "MvRange",
            Rule::CoefRange => "CoefRange",
            Rule::TransformRange => "TransformRange",
            Rule::WebmElement => "WebmElement",
            Rule::WebmTrack => "WebmTrack",
            Rule::WebmLacing => "WebmLacing",
            Rule::WebmEncoding => "WebmEncoding",
            Rule::OutputShape => "OutputShape",
        }
    }
}

impl fmt::Display for Rule {
    ghost use Rattle.std.specs.Prelude.{Some};
    ghost use Rattle.vp9_types.specs.Rules.{rule_text};

    ghost output = { λ rule. Some (rule_text rule) };

    fn fmt<W: fmt::Write>(&self, f: &mut fmt::Formatter<W>) -> fmt::Result {
        let number = self.number();
        let name = self.name();
        write!(f, "rule {number} {name}")
    }
}

impl Error for Rule {}

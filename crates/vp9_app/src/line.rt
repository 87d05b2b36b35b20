ghost use Rattle.std.specs.Prelude.{◌≡◌, ◌++◌, OnOk, string_bytes};
ghost use Rattle.frame_headers.specs.Tiles.{AreFewTiles};
ghost use Rattle.vp9_app.specs.ListingLines.{kind_name, flag_digit, size_text, depth_text, use_text, params_text, bytes_text, coded_line, shown_line};

use frame_headers::{FrameKind, FrameParams, Header};
use std::alloc::AllocError;

fn name_of(kind: &FrameKind) -> &'static str
    ensures { result.now ≡ kind_name kind.now }
{
    match kind {
        FrameKind::Key => "key",
        FrameKind::IntraOnly => "intra",
        FrameKind::Inter(_) => "inter",
    }
}

fn bit(flag: bool) -> u8
    ensures { result ≡ flag_digit flag }
{
    if flag { 1 } else { 0 }
}

#[tactic(auto, unfolding(crate::specs::ListingLines::size_text))]
fn push_size(text: &mut String, frame: u64, header: &Header) -> Result<(), AllocError>
    ensures { OnOk result (string_bytes text.new ≡ string_bytes text.old ++ size_text frame header.now) }
{
    let kind = name_of(&header.kind);
    let width = header.size.width;
    let height = header.size.height;
    write!(text, "frame {frame}: {kind} {width}x{height}")
}

#[tactic(auto, unfolding(crate::specs::ListingLines::depth_text))]
fn push_depth(text: &mut String, header: &Header) -> Result<(), AllocError>
    ensures { OnOk result (string_bytes text.new ≡ string_bytes text.old ++ depth_text header.now) }
{
    let profile = header.profile;
    let depth = header.color.depth.bits();
    write!(text, " profile {profile} depth {depth}")
}

#[tactic(auto, unfolding(crate::specs::ListingLines::use_text))]
fn push_use(text: &mut String, header: &Header) -> Result<(), AllocError>
    ensures { OnOk result (string_bytes text.new ≡ string_bytes text.old ++ use_text header.now) }
{
    let ss_x = bit(header.color.ss_x);
    let ss_y = bit(header.color.ss_y);
    let show = bit(header.show_frame);
    let high = header.refresh / 16;
    let low = header.refresh % 16;
    write!(text, " ss {ss_x}{ss_y} show {show} refresh {high:x}{low:x}")
}

#[tactic(auto, unfolding(crate::specs::ListingLines::params_text))]
fn push_params(text: &mut String, params: &FrameParams) -> Result<(), AllocError>
    requires { AreFewTiles params.now.tiles }
    ensures { OnOk result (string_bytes text.new ≡ string_bytes text.old ++ params_text params.now) }
{
    let base = params.quantizer.base;
    let level = params.loop_filter.level;
    let columns = params.tiles.columns();
    let rows = params.tiles.rows();
    write!(text, " q {base} level {level} tiles {columns}x{rows}")
}

#[tactic(auto, unfolding(crate::specs::ListingLines::bytes_text))]
fn push_bytes(text: &mut String, bytes: usize) -> Result<(), AllocError>
    ensures { OnOk result (string_bytes text.new ≡ string_bytes text.old ++ bytes_text bytes) }
{
    writeln!(text, " size {bytes}")
}

/// Adds the line of a coded frame, with its number and its size in bytes.
#[tactic(auto, unfolding(crate::specs::ListingLines::coded_line), using(crate::proofs::Texts::five_pieces))]
pub fn push_coded(
    text: &mut String,
    frame: u64,
    header: &Header,
    bytes: usize,
) -> Result<(), AllocError>
    requires { AreFewTiles header.now.params.tiles }
    ensures { OnOk result (string_bytes text.new ≡ string_bytes text.old ++ coded_line frame header.now bytes) }
{
    push_size(text, frame, header)?;
    push_depth(text, header)?;
    push_use(text, header)?;
    push_params(text, &header.params)?;
    push_bytes(text, bytes)
}

/// Adds the line of a frame that shows a slot.
#[tactic(auto, unfolding(crate::specs::ListingLines::shown_line))]
pub fn push_shown(text: &mut String, frame: u64, slot: u8, bytes: usize) -> Result<(), AllocError>
    ensures { OnOk result (string_bytes text.new ≡ string_bytes text.old ++ shown_line frame slot bytes) }
{
    writeln!(text, "frame {frame}: show {slot} size {bytes}")
}

ghost use Rattle.std.specs.Prelude.{◌≡◌, ◌+◌, ◌*◌, ◌<◌, ◌≤◌, ◌^◌, ℕ, EachIndex, length, map, slice_index, take};
ghost use Rattle.vp9_types.specs.declared.shape.Depth.TheVariants.{Eight};
ghost use Rattle.frame_output.specs.Texts.{row_text, rows_text, sample_size, two_bytes};
ghost use Rattle.std.specs.List.{flat_map};

use vp9_types::{Depth, Plane, Sample, Samples};

// How the rows of a plane are written: so many samples of each, at the bytes of this depth.
#[derive(Clone, Copy)]
pub(crate) struct RowForm {
    pub depth: Depth,
    pub width: usize,
}

pub(crate) fn sample_bytes(depth: Depth) -> usize
    ensures value { result ≡ sample_size depth }
    ensures small { result ≤ 2 }
{
    match depth {
        Depth::Eight => 1,
        Depth::Ten | Depth::Twelve => 2,
    }
}

// How many rows there is room for. Rows of nothing have room anywhere, and are written one by one.
pub(crate) fn rows_with_room(room: usize, row_bytes: usize) -> usize
    requires { row_bytes ≤ room }
    ensures whole { result * row_bytes ≤ room }
    ensures some { 0 < result }
{
    if row_bytes == 0 { 1 } else { room / row_bytes }
}

// Writes `count` rows of a plane to the front of the buffer, from row `from` on.
pub(crate) fn write_rows<S: Samples>(
    samples: &S,
    plane: Plane,
    form: RowForm,
    from: usize,
    count: usize,
    buffer: &mut [u8],
)
    requires near { from + count < 2 ^ 32 }
    requires narrow { form.width < 2 ^ 32 }
    requires wide { form.width ≤ S.width samples.now plane }
    requires held { (y : ℕ) → y < from + count → S.holds samples.now plane y }
    requires small { form.depth ≡ Eight → (y x : ℕ) → y < from + count → x < form.width → S.map samples.now plane y x < 256 }
    requires room { count * (sample_size form.depth * form.width) ≤ length buffer.old }
    ensures { take (count * (sample_size form.depth * form.width)) buffer.new ≡ rows_text form.depth form.width (S.map samples.now plane) from count }
{
    let row_bytes = sample_bytes(form.depth) * form.width;
    for i in 0..count {
        let at = i * row_bytes;
        let row = samples.row(plane, (from + i) as u32);
        write_row(
            form.depth,
            &row[..form.width],
            &mut buffer[at..at + row_bytes],
        );
    }
}

fn write_row<P: Sample>(depth: Depth, row: &[P], bytes: &mut [u8])
    requires long { length bytes.old ≡ sample_size depth * length row.now }
    requires small { depth ≡ Eight → EachIndex (map P.value row.now) (λ k. slice_index (map P.value row.now) k < 256) }
    ensures { bytes.new ≡ row_text depth (map P.value row.now) }
{
    match depth {
        Depth::Eight => write_bytes(row, bytes),
        Depth::Ten | Depth::Twelve => write_pairs(row, bytes),
    }
}

fn write_bytes<P: Sample>(row: &[P], bytes: &mut [u8])
    requires long { length bytes.old ≡ length row.now }
    requires small { EachIndex (map P.value row.now) (λ k. slice_index (map P.value row.now) k < 256) }
    ensures { bytes.new ≡ map P.value row.now }
{
    for i in 0..row.len() {
        bytes[i] = number_at(row, i) as u8;
    }
}

fn write_pairs<P: Sample>(row: &[P], bytes: &mut [u8])
    requires long { length bytes.old ≡ 2 * length row.now }
    ensures { bytes.new ≡ flat_map two_bytes (map P.value row.now) }
{
    for i in 0..row.len() {
        let sample = number_at(row, i);
        bytes[2 * i] = (sample % 256) as u8;
        bytes[2 * i + 1] = (sample / 256) as u8;
    }
}

#[inline(always)]
fn number_at<P: Sample>(row: &[P], place: usize) -> u16
    requires { place < length row.now }
    ensures { result ≡ slice_index (map P.value row.now) place }
{
    row[place].widen()
}

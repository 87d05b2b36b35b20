//! The file header and packets.

ghost use Rattle.std.specs.Prelude.{◌≡◌, ◌<◌, ◌^◌, ◌++◌, length, IfOk, OnErr};
ghost use Rattle.byteorder.specs.Endian.{little_bytes};
ghost use Rattle.ivf_container.specs.Packets.{written_bytes};
ghost use Rattle.container_writer.specs.Files.{file_header, packet_of};

use std::alloc::AllocError;

#[tactic(auto, unfolding(crate::specs::Files::file_header))]
fn header_bytes(w: u16, h: u16, rate: u32, scale: u32, count: u32) -> [u8; 32]
    ensures { result ≡ file_header w h rate scale count }
{
    let w = w.to_le_bytes();
    let h = h.to_le_bytes();
    let rate = rate.to_le_bytes();
    let scale = scale.to_le_bytes();
    let count = count.to_le_bytes();
    [
        b'D', b'K', b'I', b'F', 0, 0, 32, 0, b'V', b'P', b'9', b'0', w[0], w[1], h[0], h[1],
        rate[0], rate[1], rate[2], rate[3], scale[0], scale[1], scale[2], scale[3], count[0],
        count[1], count[2], count[3], 0, 0, 0, 0,
    ]
}

/// Puts the header of a file behind what is there. After want of memory all is as it was.
pub fn write_header(
    out: &mut Vec<u8>,
    w: u16,
    h: u16,
    rate: u32,
    scale: u32,
    count: u32,
) -> Result<(), AllocError>
    ensures put { IfOk result (λ _. out.new.items ≡ out.old.items ++ file_header w h rate scale count) }
    ensures same { OnErr result (out.new.items ≡ out.old.items) }
{
    let header = header_bytes(w, h, rate, scale, count);
    out.extend_from_slice(&header)?;
    Ok(())
}

/// What precedes a payload: its size and the time stamp.
fn packet_header(size: u32, stamp: u64) -> [u8; 12]
    ensures { result ≡ little_bytes 4 size ++ little_bytes 8 stamp }
{
    let size = size.to_le_bytes();
    let stamp = stamp.to_le_bytes();
    [
        size[0], size[1], size[2], size[3], stamp[0], stamp[1], stamp[2], stamp[3], stamp[4],
        stamp[5], stamp[6], stamp[7],
    ]
}

/// Puts a packet behind what is there. After want of memory all is as it was.
pub fn write_packet(out: &mut Vec<u8>, stamp: u64, payload: &[u8]) -> Result<(), AllocError>
    requires { length payload.now < 2 ^ 32 }
    ensures put { IfOk result (λ _. out.new.items ≡ out.old.items ++ written_bytes (packet_of stamp payload.now)) }
    ensures same { OnErr result (out.new.items ≡ out.old.items) }
{
    let before = out.len();
    let header = packet_header(payload.len() as u32, stamp);
    out.extend_from_slice(&header)?;
    if let Err(refused) = out.extend_from_slice(payload) {
        out.truncate(before);
        return Err(refused);
    }
    Ok(())
}

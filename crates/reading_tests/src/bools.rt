//! Bools of the standard's arithmetic over numbers without bound, as tools/vectors.py bools reads them.

use bool_decoder::BoolDecoder;
use std::process::Abort;
use std::test::Fail;
use vp9_types::Rule;

const ZEROS_BYTES: [u8; 2] = [0, 0];

const ZEROS_PROBS: [u8; 24] = [
    128, 128, 128, 128, 128, 128, 128, 128, 128, 128, 128, 128, 128, 128, 128, 128, 128, 128, 128,
    128, 128, 128, 128, 128,
];

const ZEROS_BOOLS: &[u8; 24] = b"000000000000000000000000";

const SHORT_BYTES: [u8; 1] = [0];

const SHORT_PROBS: [u8; 24] = [
    1, 255, 64, 200, 128, 3, 250, 100, 1, 255, 64, 200, 128, 3, 250, 100, 1, 255, 64, 200, 128, 3,
    250, 100,
];

const SHORT_BOOLS: &[u8; 24] = b"000000000000000000000000";

const ONES_BYTES: [u8; 2] = [127, 255];

const ONES_PROBS: [u8; 32] = [
    128, 255, 1, 200, 60, 90, 254, 2, 128, 255, 1, 200, 60, 90, 254, 2, 128, 255, 1, 200, 60, 90,
    254, 2, 128, 255, 1, 200, 60, 90, 254, 2,
];

const ONES_BOOLS: &[u8; 32] = b"11111101101110011010110100101101";

const EVEN_BYTES: [u8; 8] = [60, 94, 129, 180, 12, 94, 198, 142];

const EVEN_PROBS: [u8; 80] = [
    128, 128, 128, 128, 128, 128, 128, 128, 128, 128, 128, 128, 128, 128, 128, 128, 128, 128, 128,
    128, 128, 128, 128, 128, 128, 128, 128, 128, 128, 128, 128, 128, 128, 128, 128, 128, 128, 128,
    128, 128, 128, 128, 128, 128, 128, 128, 128, 128, 128, 128, 128, 128, 128, 128, 128, 128, 128,
    128, 128, 128, 128, 128, 128, 128, 128, 128, 128, 128, 128, 128, 128, 128, 128, 128, 128, 128,
    128, 128, 128, 128,
];

const EVEN_BOOLS: &[u8; 80] =
    b"01111000101111010000001101101000000110001011110110001101000111000000000000000000";

const VARIED_BYTES: [u8; 16] = [
    60, 164, 142, 208, 12, 156, 17, 77, 138, 207, 156, 122, 133, 177, 235, 97,
];

const VARIED_PROBS: [u8; 160] = [
    71, 67, 156, 86, 94, 166, 5, 87, 223, 69, 184, 137, 83, 30, 157, 169, 223, 210, 242, 112, 242,
    68, 193, 89, 163, 2, 82, 142, 161, 64, 133, 98, 190, 105, 85, 251, 106, 141, 237, 18, 191, 41,
    255, 235, 224, 20, 102, 227, 201, 147, 46, 73, 229, 213, 134, 82, 249, 96, 74, 92, 56, 41, 27,
    214, 155, 114, 59, 130, 205, 139, 148, 223, 52, 43, 184, 247, 3, 245, 174, 228, 83, 82, 223,
    177, 159, 206, 122, 136, 60, 133, 31, 66, 154, 99, 172, 199, 95, 61, 115, 215, 193, 250, 65,
    54, 155, 103, 239, 61, 36, 101, 112, 87, 85, 131, 149, 248, 81, 58, 237, 247, 99, 94, 135, 114,
    104, 131, 123, 160, 188, 81, 121, 45, 244, 23, 204, 21, 3, 26, 131, 12, 156, 107, 187, 234,
    221, 61, 55, 177, 164, 9, 196, 31, 22, 252, 13, 224, 54, 130, 225, 210,
];

const VARIED_BOOLS: &[u8; 160] =
    b"1100001001010101000000110111111000101101010001000011000111111110001100001100100011010011111110000100101100011011101011001011111111110101110110100110010110100000";

const LITERAL_BYTES: [u8; 40] = [
    61, 210, 237, 227, 98, 27, 238, 35, 143, 237, 132, 216, 121, 152, 96, 79, 160, 103, 44, 247,
    171, 235, 107, 173, 183, 234, 148, 54, 79, 214, 222, 243, 38, 3, 96, 41, 191, 26, 94, 113,
];

const LITERAL_SIZES: [u32; 28] = [
    1, 2, 3, 4, 7, 8, 15, 16, 24, 31, 32, 32, 0, 5, 1, 2, 3, 4, 7, 8, 15, 16, 24, 31, 32, 32, 0, 5,
];

const LITERALS: [u32; 28] = [
    0, 3, 6, 14, 75, 183, 18116, 14300, 4661211, 81295768, 1615831143, 754428907, 0, 13, 0, 3, 5,
    6, 109, 250, 21126, 51706, 14409316, 1614152347, 4054181648, 0, 0, 0,
];

const TREE: [i8; 18] = [
    0, 2, -9, 4, -1, 6, 8, 12, -2, 10, -4, -5, -3, 14, -8, 16, -6, -7,
];

const TREE_BYTES: [u8; 24] = [
    61, 1, 76, 246, 183, 154, 202, 248, 147, 10, 109, 55, 109, 127, 213, 62, 238, 110, 197, 189,
    13, 11, 195, 210,
];

const TREE_PROBS: [u8; 9] = [61, 188, 63, 219, 184, 93, 128, 57, 14];

const LEAVES: [u8; 60] = [
    9, 9, 9, 0, 9, 9, 4, 9, 9, 0, 9, 9, 9, 9, 0, 9, 9, 9, 0, 0, 0, 9, 9, 9, 0, 9, 2, 2, 0, 9, 5, 9,
    9, 9, 0, 0, 9, 9, 0, 9, 0, 9, 9, 9, 0, 1, 9, 0, 0, 9, 9, 9, 9, 9, 0, 9, 9, 9, 0, 9,
];

const DIFFERENCE_BYTES: [u8; 40] = [
    61, 47, 170, 9, 12, 25, 167, 205, 152, 40, 85, 149, 97, 103, 74, 44, 61, 118, 94, 131, 111, 43,
    26, 246, 47, 174, 250, 72, 141, 78, 56, 146, 1, 112, 247, 218, 44, 100, 246, 7,
];

const DIFFERENCES: [u8; 48] = [
    15, 9, 15, 26, 16, 20, 6, 1, 22, 23, 45, 22, 1, 8, 10, 28, 26, 34, 46, 21, 2, 35, 55, 12, 31,
    8, 6, 62, 10, 38, 31, 12, 11, 110, 209, 8, 19, 10, 14, 7, 2, 9, 0, 2, 71, 31, 29, 2,
];

fn reads(rt: &impl Abort, bytes: &[u8], probs: &[u8], bools: &[u8]) -> Result<(), Rule> {
    let mut decoder = BoolDecoder::start(bytes)?;
    for (p, bool) in probs.iter().zip(bools) {
        assert_eq!(rt; decoder.bit(*p), *bool == b'1');
    }
    Ok(())
}

#[test]
fn bools(rt: HostRuntime) -> Result<(), Fail> {
    reads(&rt, &ZEROS_BYTES, &ZEROS_PROBS, ZEROS_BOOLS)?;
    reads(&rt, &SHORT_BYTES, &SHORT_PROBS, SHORT_BOOLS)?;
    reads(&rt, &ONES_BYTES, &ONES_PROBS, ONES_BOOLS)?;
    reads(&rt, &EVEN_BYTES, &EVEN_PROBS, EVEN_BOOLS)?;
    reads(&rt, &VARIED_BYTES, &VARIED_PROBS, VARIED_BOOLS)?;
    Ok(())
}

#[test]
fn literals(rt: HostRuntime) -> Result<(), Fail> {
    let mut decoder = BoolDecoder::start(&LITERAL_BYTES)?;
    for (size, value) in LITERAL_SIZES.iter().zip(&LITERALS) {
        assert!(rt; *size <= 32);
        assert_eq!(rt; decoder.literal(*size), *value);
    }
    Ok(())
}

#[test]
fn trees(rt: HostRuntime) -> Result<(), Fail> {
    let mut decoder = BoolDecoder::start(&TREE_BYTES)?;
    for leaf in &LEAVES {
        assert_eq!(rt; decoder.tree(&TREE, &TREE_PROBS), *leaf);
    }
    Ok(())
}

#[test]
fn differences(rt: HostRuntime) -> Result<(), Fail> {
    let mut decoder = BoolDecoder::start(&DIFFERENCE_BYTES)?;
    for value in &DIFFERENCES {
        assert_eq!(rt; decoder.difference(), *value);
    }
    Ok(())
}

#[test]
fn starts(rt: HostRuntime) -> Result<(), Fail> {
    assert_eq!(rt; BoolDecoder::start(&[]).err(), Some(Rule::BoolEmpty));
    assert_eq!(rt; BoolDecoder::start(&[128]).err(), Some(Rule::BoolMarker));
    assert_eq!(rt;
        BoolDecoder::start(&[255, 0, 0, 0, 0, 0, 0, 0, 0]).err(),
        Some(Rule::BoolMarker)
    );
    assert_eq!(rt; BoolDecoder::start(&[127, 255]).err(), None);
    Ok(())
}

// Written by tools/vectors.py runs, from samples/rows/list.tsv.

use super::Row;

const ROWS_0: [Row; 10] = [
    Row {
        name: "empty input",
        words: &["list"],
        input: b"",
        status: 3,
        output: b"",
        note: "frame 0: rule 2 IvfHeader\n",
    },
    Row {
        name: "header alone",
        words: &["list"],
        input: b"DKIF\0\0 \0VP90\0\0\0\0\0\0\0\0\0\0\0\0\0\0\0\0\0\0\0\0",
        status: 0,
        output: b"",
        note: "",
    },
    Row {
        name: "wrong signature",
        words: &["list"],
        input: b"DKIX",
        status: 3,
        output: b"",
        note: "frame 0: rule 1 IvfSignature\n",
    },
    Row {
        name: "wrong codec",
        words: &["list"],
        input: b"DKIF\0\0 \0WP90\0\0\0\0\0\0\0\0\0\0\0\0\0\0\0\0\0\0\0\0",
        status: 3,
        output: b"",
        note: "frame 0: rule 3 IvfCodec\n",
    },
    Row {
        name: "payload cut short",
        words: &["list"],
        input: b"DKIF\0\0 \0VP90\0\0\0\0\0\0\0\0\0\0\0\0\0\0\0\0\0\0\0\0\x05\0\0\0\0\0\0\0\0\0\0\0\x01\x02\x03",
        status: 3,
        output: b"",
        note: "frame 0: rule 4 IvfTruncated\n",
    },
    Row {
        name: "header cut to 0 bytes",
        words: &["list"],
        input: b"",
        status: 3,
        output: b"",
        note: "frame 0: rule 2 IvfHeader\n",
    },
    Row {
        name: "header cut to 3 bytes",
        words: &["list"],
        input: b"DKI",
        status: 3,
        output: b"",
        note: "frame 0: rule 2 IvfHeader\n",
    },
    Row {
        name: "header cut to 4 bytes",
        words: &["list"],
        input: b"DKIF",
        status: 3,
        output: b"",
        note: "frame 0: rule 2 IvfHeader\n",
    },
    Row {
        name: "header cut to 31 bytes",
        words: &["list"],
        input: b"DKIF\0\0 \0VP90\0\0\0\0\0\0\0\0\0\0\0\0\0\0\0\0\0\0\0",
        status: 3,
        output: b"",
        note: "frame 0: rule 2 IvfHeader\n",
    },
    Row {
        name: "header length 31",
        words: &["list"],
        input: b"DKIF\0\0\x1f\0VP90\0\0\0\0\0\0\0\0\0\0\0\0\0\0\0\0\0\0\0\0",
        status: 3,
        output: b"",
        note: "frame 0: rule 2 IvfHeader\n",
    },
];

const ROWS_1: [Row; 10] = [
    Row {
        name: "header length 33, file of 32",
        words: &["list"],
        input: b"DKIF\0\0!\0VP90\0\0\0\0\0\0\0\0\0\0\0\0\0\0\0\0\0\0\0\0",
        status: 3,
        output: b"",
        note: "frame 0: rule 2 IvfHeader\n",
    },
    Row {
        name: "header length 40 is skipped",
        words: &["list"],
        input: b"DKIF\0\0(\0VP90\0\0\0\0\0\0\0\0\0\0\0\0\0\0\0\0\0\0\0\0\0\0\0\0\0\0\0\0",
        status: 0,
        output: b"",
        note: "",
    },
    Row {
        name: "packet header cut to 11 bytes",
        words: &["list"],
        input: b"DKIF\0\0 \0VP90\0\0\0\0\0\0\0\0\0\0\0\0\0\0\0\0\0\0\0\0\0\0\0\0\0\0\0\0\0\0\0",
        status: 3,
        output: b"",
        note: "frame 0: rule 4 IvfTruncated\n",
    },
    Row {
        name: "empty payload holds no frame",
        words: &["list"],
        input: b"DKIF\0\0 \0VP90\0\0\0\0\0\0\0\0\0\0\0\0\0\0\0\0\0\0\0\0\0\0\0\0\0\0\0\0\0\0\0\0",
        status: 0,
        output: b"",
        note: "",
    },
    Row {
        name: "frame marker 1",
        words: &["list"],
        input: b"DKIF\0\0 \0VP90\0\0\0\0\0\0\0\0\0\0\0\0\0\0\0\0\0\0\0\0\x01\0\0\0\0\0\0\0\0\0\0\0@",
        status: 3,
        output: b"",
        note: "frame 0: rule 7 FrameMarker\n",
    },
    Row {
        name: "header ends inside sync code",
        words: &["list"],
        input: b"DKIF\0\0 \0VP90\0\0\0\0\0\0\0\0\0\0\0\0\0\0\0\0\0\0\0\0\x02\0\0\0\0\0\0\0\0\0\0\0\x82I",
        status: 3,
        output: b"",
        note: "frame 0: rule 6 HeaderTruncated\n",
    },
    Row {
        name: "sync code wrong in its third byte",
        words: &["list"],
        input: b"DKIF\0\0 \0VP90\0\0\0\0\0\0\0\0\0\0\0\0\0\0\0\0\0\0\0\0\x04\0\0\0\0\0\0\0\0\0\0\0\x82I\x83C",
        status: 3,
        output: b"",
        note: "frame 0: rule 9 SyncCode\n",
    },
    Row {
        name: "RGB in profile 0",
        words: &["list"],
        input: b"DKIF\0\0 \0VP90\0\0\0\0\0\0\0\0\0\0\0\0\0\0\0\0\0\0\0\0\x05\0\0\0\0\0\0\0\0\0\0\0\x82I\x83B\xe0",
        status: 3,
        output: b"",
        note: "frame 0: rule 10 ColourConfig\n",
    },
    Row {
        name: "compressed header size 0",
        words: &["list"],
        input: b"DKIF\0\0 \0VP90\0\0\0\0\0\0\0\0\0\0\0\0\0\0\0\0\0\0\0\0\x10\0\0\0\0\0\0\0\0\0\0\0\x83I\x83B\0\0\0\0\
\0\0\0\0\0\0\0\0",
        status: 3,
        output: b"",
        note: "frame 0: rule 15 HeaderSizeZero\n",
    },
    Row {
        name: "compressed header longer than the frame",
        words: &["list"],
        input: b"DKIF\0\0 \0VP90\0\0\0\0\0\0\0\0\0\0\0\0\0\0\0\0\0\0\0\0\x0e\0\0\0\0\0\0\0\0\0\0\0\x83I\x83B\0\0\0\0\
\0\0\0\0\0\x04",
        status: 3,
        output: b"",
        note: "frame 0: rule 16 HeaderSizeLong\n",
    },
];

const ROWS_2: [Row; 10] = [
    Row {
        name: "one key frame",
        words: &["list"],
        input: b"DKIF\0\0 \0VP90\0\0\0\0\0\0\0\0\0\0\0\0\0\0\0\0\0\0\0\0\x10\0\0\0\0\0\0\0\0\0\0\0\x83I\x83B\0\0\0\0\
\0\0\0\0\0\x04\0\0",
        status: 0,
        output: b"frame 0: key 1x1 profile 0 depth 8 ss 11 show 1 refresh ff q 0 level 0 tiles 1x1 size 16\n",
        note: "",
    },
    Row {
        name: "one key frame of 8x8",
        words: &["list"],
        input: b"DKIF\0\0 \0VP90\0\0\0\0\0\0\0\0\0\0\0\0\0\0\0\0\0\0\0\0\x10\0\0\0\0\0\0\0\0\0\0\0\x83I\x83B\0\0p\0p\
\0\0\0\0\x04\0\0",
        status: 0,
        output: b"frame 0: key 8x8 profile 0 depth 8 ss 11 show 1 refresh ff q 0 level 0 tiles 1x1 size 16\n",
        note: "",
    },
    Row {
        name: "frames before a bad one are listed",
        words: &["list"],
        input: b"DKIF\0\0 \0VP90\0\0\0\0\0\0\0\0\0\0\0\0\0\0\0\0\0\0\0\0\x10\0\0\0\0\0\0\0\0\0\0\0\x83I\x83B\0\0\0\0\
\0\0\0\0\0\x04\0\0\x01\0\0\0\0\0\0\0\0\0\0\0@",
        status: 3,
        output: b"frame 0: key 1x1 profile 0 depth 8 ss 11 show 1 refresh ff q 0 level 0 tiles 1x1 size 16\n",
        note: "frame 1: rule 7 FrameMarker\n",
    },
    Row {
        name: "no word",
        words: &[],
        input: b"",
        status: 2,
        output: b"",
        note: "usage: vp9dec list / decode / make / trial\n",
    },
    Row {
        name: "a word too many",
        words: &["list", "x"],
        input: b"DKIF\0\0 \0VP90\0\0\0\0\0\0\0\0\0\0\0\0\0\0\0\0\0\0\0\0",
        status: 2,
        output: b"",
        note: "usage: vp9dec list / decode / make / trial\n",
    },
    Row {
        name: "unknown word",
        words: &["lst"],
        input: b"DKIF\0\0 \0VP90\0\0\0\0\0\0\0\0\0\0\0\0\0\0\0\0\0\0\0\0",
        status: 2,
        output: b"",
        note: "usage: vp9dec list / decode / make / trial\n",
    },
    Row {
        name: "shows an empty slot",
        words: &["list"],
        input: b"DKIF\0\0 \0VP90\0\0\0\0\0\0\0\0\0\0\0\0\0\0\0\0\0\0\0\0\x01\0\0\0\0\0\0\0\0\0\0\0\x88",
        status: 3,
        output: b"",
        note: "frame 0: rule 11 ShowMissing\n",
    },
    Row {
        name: "reserved bit of profile 3",
        words: &["list"],
        input: b"DKIF\0\0 \0VP90\0\0\0\0\0\0\0\0\0\0\0\0\0\0\0\0\0\0\0\0\x01\0\0\0\0\0\0\0\0\0\0\0\xb8",
        status: 3,
        output: b"",
        note: "frame 0: rule 8 ReservedBit\n",
    },
    Row {
        name: "4:2:0 in profile 1",
        words: &["list"],
        input: b"DKIF\0\0 \0VP90\0\0\0\0\0\0\0\0\0\0\0\0\0\0\0\0\0\0\0\0\x05\0\0\0\0\0\0\0\0\0\0\0\xa3I\x83B\x0c",
        status: 3,
        output: b"",
        note: "frame 0: rule 10 ColourConfig\n",
    },
    Row {
        name: "reference to an empty slot",
        words: &["list"],
        input: b"DKIF\0\0 \0VP90\0\0\0\0\0\0\0\0\0\0\0\0\0\0\0\0\0\0\0\0\x03\0\0\0\0\0\0\0\0\0\0\0\x87\0\0",
        status: 3,
        output: b"",
        note: "frame 0: rule 12 RefMissing\n",
    },
];

const ROWS_3: [Row; 10] = [
    Row {
        name: "superframe sizes above the room",
        words: &["list"],
        input: b"DKIF\0\0 \0VP90\0\0\0\0\0\0\0\0\0\0\0\0\0\0\0\0\0\0\0\0\x07\0\0\0\0\0\0\0\0\0\0\0\0\0\0\xc1\x10\x01\
\xc1",
        status: 3,
        output: b"",
        note: "frame 0: rule 5 SuperframeSizes\n",
    },
    Row {
        name: "hidden, then shown, in a superframe",
        words: &["list"],
        input: b"DKIF\0\0 \0VP90\0\0\0\0\0\0\0\0\0\0\0\0\0\0\0\0\0\0\0\0\x15\0\0\0\0\0\0\0\0\0\0\0\x81I\x83B\0\0\0\0\
\0\0\0\0\0\x04\0\0\x88\xc1\x10\x01\xc1",
        status: 0,
        output: b"frame 0: key 1x1 profile 0 depth 8 ss 11 show 0 refresh ff q 0 level 0 tiles 1x1 size 16\nframe 1: s\
how 0 size 1\n",
        note: "",
    },
    Row {
        name: "bytes between the last frame and the index",
        words: &["list"],
        input: b"DKIF\0\0 \0VP90\0\0\0\0\0\0\0\0\0\0\0\0\0\0\0\0\0\0\0\0#\0\0\0\0\0\0\0\0\0\0\0\x83I\x83B\0\0\0\0\0\0\
\0\0\0\x04\0\0\0\0\0\0\0\0\0\0\0\0\0\0\0\0\0\0\xc0\x10\xc0",
        status: 0,
        output: b"frame 0: key 1x1 profile 0 depth 8 ss 11 show 1 refresh ff q 0 level 0 tiles 1x1 size 16\n",
        note: "",
    },
    Row {
        name: "index first byte differs: one frame",
        words: &["list"],
        input: b"DKIF\0\0 \0VP90\0\0\0\0\0\0\0\0\0\0\0\0\0\0\0\0\0\0\0\0$\0\0\0\0\0\0\0\0\0\0\0\x83I\x83B\0\0\0\0\0\0\
\0\0\0\x04\0\0\0\0\0\0\0\0\0\0\0\0\0\0\0\0\0\0\xc0\x10\x01\xc1",
        status: 0,
        output: b"frame 0: key 1x1 profile 0 depth 8 ss 11 show 1 refresh ff q 0 level 0 tiles 1x1 size 36\n",
        note: "",
    },
    Row {
        name: "slot shown three times",
        words: &["list"],
        input: b"DKIF\0\0 \0VP90\0\0\0\0\0\0\0\0\0\0\0\0\0\0\0\0\0\0\0\0\x10\0\0\0\0\0\0\0\0\0\0\0\x83I\x83B\0\0\0\0\
\0\0\0\0\0\x04\0\0\x01\0\0\0\0\0\0\0\0\0\0\0\x88\x01\0\0\0\0\0\0\0\0\0\0\0\x88\x01\0\0\0\0\0\0\0\0\0\
\0\0\x88",
        status: 0,
        output: b"frame 0: key 1x1 profile 0 depth 8 ss 11 show 1 refresh ff q 0 level 0 tiles 1x1 size 16\nframe 1: s\
how 0 size 1\nframe 2: show 0 size 1\nframe 3: show 0 size 1\n",
        note: "",
    },
    Row {
        name: "depth 10",
        words: &["list"],
        input: b"DKIF\0\0 \0VP90\0\0\0\0\0\0\0\0\0\0\0\0\0\0\0\0\0\0\0\0\x10\0\0\0\0\0\0\0\0\0\0\0\x93I\x83B\0\0\0\0\
\0\0\0\0\0\x02\0\0",
        status: 0,
        output: b"frame 0: key 1x1 profile 2 depth 10 ss 11 show 1 refresh ff q 0 level 0 tiles 1x1 size 16\n",
        note: "",
    },
    Row {
        name: "4:4:4",
        words: &["list"],
        input: b"DKIF\0\0 \0VP90\0\0\0\0\0\0\0\0\0\0\0\0\0\0\0\0\0\0\0\0\x11\0\0\0\0\0\0\0\0\0\0\0\xa3I\x83B\0\0\0\0\
\0\0\0\0\0\0\x80\0\0",
        status: 0,
        output: b"frame 0: key 1x1 profile 1 depth 8 ss 00 show 1 refresh ff q 0 level 0 tiles 1x1 size 17\n",
        note: "",
    },
    Row {
        name: "greatest size",
        words: &["list"],
        input: b"DKIF\0\0 \0VP90\0\0\0\0\0\0\0\0\0\0\0\0\0\0\0\0\0\0\0\0\x0f\0\0\0\0\0\0\0\0\0\0\0\x83I\x83B\x0f\xff\
\xff\xff\xf0\0\0\0\0\x02\0",
        status: 0,
        output: b"frame 0: key 65536x65536 profile 0 depth 8 ss 11 show 1 refresh ff q 0 level 0 tiles 16x1 size 15\n",
        note: "",
    },
    Row {
        name: "words: decode --workers 0",
        words: &["decode", "--workers", "0"],
        input: b"DKIF\0\0 \0VP90\0\0\0\0\0\0\0\0\0\0\0\0\0\0\0\0\0\0\0\0",
        status: 2,
        output: b"",
        note: "usage: vp9dec list / decode / make / trial\n",
    },
    Row {
        name: "words: decode --workers 65",
        words: &["decode", "--workers", "65"],
        input: b"DKIF\0\0 \0VP90\0\0\0\0\0\0\0\0\0\0\0\0\0\0\0\0\0\0\0\0",
        status: 2,
        output: b"",
        note: "usage: vp9dec list / decode / make / trial\n",
    },
];

const ROWS_4: [Row; 7] = [
    Row {
        name: "words: decode --window 1",
        words: &["decode", "--window", "1"],
        input: b"DKIF\0\0 \0VP90\0\0\0\0\0\0\0\0\0\0\0\0\0\0\0\0\0\0\0\0",
        status: 2,
        output: b"",
        note: "usage: vp9dec list / decode / make / trial\n",
    },
    Row {
        name: "words: decode --window 17",
        words: &["decode", "--window", "17"],
        input: b"DKIF\0\0 \0VP90\0\0\0\0\0\0\0\0\0\0\0\0\0\0\0\0\0\0\0\0",
        status: 2,
        output: b"",
        note: "usage: vp9dec list / decode / make / trial\n",
    },
    Row {
        name: "words: decode --workers",
        words: &["decode", "--workers"],
        input: b"DKIF\0\0 \0VP90\0\0\0\0\0\0\0\0\0\0\0\0\0\0\0\0\0\0\0\0",
        status: 2,
        output: b"",
        note: "usage: vp9dec list / decode / make / trial\n",
    },
    Row {
        name: "words: decode x",
        words: &["decode", "x"],
        input: b"DKIF\0\0 \0VP90\0\0\0\0\0\0\0\0\0\0\0\0\0\0\0\0\0\0\0\0",
        status: 2,
        output: b"",
        note: "usage: vp9dec list / decode / make / trial\n",
    },
    Row {
        name: "words: --help",
        words: &["--help"],
        input: b"DKIF\0\0 \0VP90\0\0\0\0\0\0\0\0\0\0\0\0\0\0\0\0\0\0\0\0",
        status: 2,
        output: b"",
        note: "usage: vp9dec list / decode / make / trial\n",
    },
    Row {
        name: "words: --version",
        words: &["--version"],
        input: b"DKIF\0\0 \0VP90\0\0\0\0\0\0\0\0\0\0\0\0\0\0\0\0\0\0\0\0",
        status: 2,
        output: b"",
        note: "usage: vp9dec list / decode / make / trial\n",
    },
    Row {
        name: "words: list --plain",
        words: &["list", "--plain"],
        input: b"DKIF\0\0 \0VP90\0\0\0\0\0\0\0\0\0\0\0\0\0\0\0\0\0\0\0\0",
        status: 2,
        output: b"",
        note: "usage: vp9dec list / decode / make / trial\n",
    },
];

pub const TABLES: [&[Row]; 5] = [&ROWS_0, &ROWS_1, &ROWS_2, &ROWS_3, &ROWS_4];

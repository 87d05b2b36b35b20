// Runs of samples/rows/decode.tsv and more_decode.tsv, which tools/vectors.py runs compares with them.

use super::Row;

const ROWS_0: [Row; 10] = [
    Row {
        name: "empty input",
        words: &["decode"],
        input: b"",
        status: 3,
        output: b"",
        note: "frame 0: rule 2 IvfHeader\n",
    },
    Row {
        name: "header alone",
        words: &["decode"],
        input: b"DKIF\0\0 \0VP90\0\0\0\0\0\0\0\0\0\0\0\0\0\0\0\0\0\0\0\0",
        status: 0,
        output: b"",
        note: "",
    },
    Row {
        name: "wrong signature",
        words: &["decode"],
        input: b"DKIX",
        status: 3,
        output: b"",
        note: "frame 0: rule 1 IvfSignature\n",
    },
    Row {
        name: "wrong codec",
        words: &["decode"],
        input: b"DKIF\0\0 \0WP90\0\0\0\0\0\0\0\0\0\0\0\0\0\0\0\0\0\0\0\0",
        status: 3,
        output: b"",
        note: "frame 0: rule 3 IvfCodec\n",
    },
    Row {
        name: "payload cut short",
        words: &["decode"],
        input: b"DKIF\0\0 \0VP90\0\0\0\0\0\0\0\0\0\0\0\0\0\0\0\0\0\0\0\0\x05\0\0\0\0\0\0\0\0\0\0\0\x01\x02\x03",
        status: 3,
        output: b"",
        note: "frame 0: rule 4 IvfTruncated\n",
    },
    Row {
        name: "shows an empty slot",
        words: &["decode"],
        input: b"DKIF\0\0 \0VP90\0\0\0\0\0\0\0\0\0\0\0\0\0\0\0\0\0\0\0\0\x01\0\0\0\0\0\0\0\0\0\0\0\x88",
        status: 3,
        output: b"",
        note: "frame 0: rule 11 ShowMissing\n",
    },
    Row {
        name: "frame marker 1",
        words: &["decode"],
        input: b"DKIF\0\0 \0VP90\0\0\0\0\0\0\0\0\0\0\0\0\0\0\0\0\0\0\0\0\x01\0\0\0\0\0\0\0\0\0\0\0@",
        status: 3,
        output: b"",
        note: "frame 0: rule 7 FrameMarker\n",
    },
    Row {
        name: "reserved bit of profile 3",
        words: &["decode"],
        input: b"DKIF\0\0 \0VP90\0\0\0\0\0\0\0\0\0\0\0\0\0\0\0\0\0\0\0\0\x01\0\0\0\0\0\0\0\0\0\0\0\xb8",
        status: 3,
        output: b"",
        note: "frame 0: rule 8 ReservedBit\n",
    },
    Row {
        name: "header ends inside sync code",
        words: &["decode"],
        input: b"DKIF\0\0 \0VP90\0\0\0\0\0\0\0\0\0\0\0\0\0\0\0\0\0\0\0\0\x02\0\0\0\0\0\0\0\0\0\0\0\x82I",
        status: 3,
        output: b"",
        note: "frame 0: rule 6 HeaderTruncated\n",
    },
    Row {
        name: "sync code wrong in its third byte",
        words: &["decode"],
        input: b"DKIF\0\0 \0VP90\0\0\0\0\0\0\0\0\0\0\0\0\0\0\0\0\0\0\0\0\x04\0\0\0\0\0\0\0\0\0\0\0\x82I\x83C",
        status: 3,
        output: b"",
        note: "frame 0: rule 9 SyncCode\n",
    },
];

const ROWS_1: [Row; 10] = [
    Row {
        name: "RGB in profile 0",
        words: &["decode"],
        input: b"DKIF\0\0 \0VP90\0\0\0\0\0\0\0\0\0\0\0\0\0\0\0\0\0\0\0\0\x05\0\0\0\0\0\0\0\0\0\0\0\x82I\x83B\xe0",
        status: 3,
        output: b"",
        note: "frame 0: rule 10 ColourConfig\n",
    },
    Row {
        name: "4:2:0 in profile 1",
        words: &["decode"],
        input: b"DKIF\0\0 \0VP90\0\0\0\0\0\0\0\0\0\0\0\0\0\0\0\0\0\0\0\0\x05\0\0\0\0\0\0\0\0\0\0\0\xa3I\x83B\x0c",
        status: 3,
        output: b"",
        note: "frame 0: rule 10 ColourConfig\n",
    },
    Row {
        name: "reference to an empty slot",
        words: &["decode"],
        input: b"DKIF\0\0 \0VP90\0\0\0\0\0\0\0\0\0\0\0\0\0\0\0\0\0\0\0\0\x03\0\0\0\0\0\0\0\0\0\0\0\x87\0\0",
        status: 3,
        output: b"",
        note: "frame 0: rule 12 RefMissing\n",
    },
    Row {
        name: "superframe sizes beyond their room",
        words: &["decode"],
        input: b"DKIF\0\0 \0VP90\0\0\0\0\0\0\0\0\0\0\0\0\0\0\0\0\0\0\0\0\x07\0\0\0\0\0\0\0\0\0\0\0\0\0\0\xc1\x10\x01\
\xc1",
        status: 3,
        output: b"",
        note: "frame 0: rule 5 SuperframeSizes\n",
    },
    Row {
        name: "one key frame of 1x1",
        words: &["decode"],
        input: b"DKIF\0\0 \0VP90\0\0\0\0\0\0\0\0\0\0\0\0\0\0\0\0\0\0\0\0\x10\0\0\0\0\0\0\0\0\0\0\0\x83I\x83B\0\0\0\0\
\0\0\0\0\0\x04\0\0",
        status: 0,
        output: b"\x80\x80\x80",
        note: "",
    },
    Row {
        name: "one key frame of 8x8",
        words: &["decode"],
        input: b"DKIF\0\0 \0VP90\0\0\0\0\0\0\0\0\0\0\0\0\0\0\0\0\0\0\0\0\x10\0\0\0\0\0\0\0\0\0\0\0\x83I\x83B\0\0p\0p\
\0\0\0\0\x04\0\0",
        status: 0,
        output: b"\x80\x80\x80\x80\x80\x80\x80\x80\x80\x80\x80\x80\x80\x80\x80\x80\x80\x80\x80\x80\x80\x80\x80\x80\x80\
\x80\x80\x80\x80\x80\x80\x80\x80\x80\x80\x80\x80\x80\x80\x80\x80\x80\x80\x80\x80\x80\x80\x80\x80\x80\
\x80\x80\x80\x80\x80\x80\x80\x80\x80\x80\x80\x80\x80\x80\x80\x80\x80\x80\x80\x80\x80\x80\x80\x80\x80\
\x80\x80\x80\x80\x80\x80\x80\x80\x80\x80\x80\x80\x80\x80\x80\x80\x80\x80\x80\x80\x80",
        note: "",
    },
    Row {
        name: "an empty payload holds no frame",
        words: &["decode"],
        input: b"DKIF\0\0 \0VP90\0\0\0\0\0\0\0\0\0\0\0\0\0\0\0\0\0\0\0\0\x10\0\0\0\0\0\0\0\0\0\0\0\x83I\x83B\0\0\0\0\
\0\0\0\0\0\x04\0\0\0\0\0\0\0\0\0\0\0\0\0\0",
        status: 0,
        output: b"\x80\x80\x80",
        note: "",
    },
    Row {
        name: "compressed header size 0",
        words: &["decode"],
        input: b"DKIF\0\0 \0VP90\0\0\0\0\0\0\0\0\0\0\0\0\0\0\0\0\0\0\0\0\x10\0\0\0\0\0\0\0\0\0\0\0\x83I\x83B\0\0\0\0\
\0\0\0\0\0\0\0\0",
        status: 3,
        output: b"",
        note: "frame 0: rule 15 HeaderSizeZero\n",
    },
    Row {
        name: "compressed header longer than the frame",
        words: &["decode"],
        input: b"DKIF\0\0 \0VP90\0\0\0\0\0\0\0\0\0\0\0\0\0\0\0\0\0\0\0\0\x0e\0\0\0\0\0\0\0\0\0\0\0\x83I\x83B\0\0\0\0\
\0\0\0\0\0\x04",
        status: 3,
        output: b"",
        note: "frame 0: rule 16 HeaderSizeLong\n",
    },
    Row {
        name: "tile of 0 bytes at the end",
        words: &["decode"],
        input: b"DKIF\0\0 \0VP90\0\0\0\0\0\0\0\0\0\0\0\0\0\0\0\0\0\0\0\0\x0f\0\0\0\0\0\0\0\0\0\0\0\x83I\x83B\0\0\0\0\
\0\0\0\0\0\x04\0",
        status: 3,
        output: b"",
        note: "frame 0: rule 17 BoolEmpty\n",
    },
];

const ROWS_2: [Row; 10] = [
    Row {
        name: "marker bool is 1",
        words: &["decode"],
        input: b"DKIF\0\0 \0VP90\0\0\0\0\0\0\0\0\0\0\0\0\0\0\0\0\0\0\0\0\x10\0\0\0\0\0\0\0\0\0\0\0\x83I\x83B\0\0\0\0\
\0\0\0\0\0\x04\0\x80",
        status: 3,
        output: b"",
        note: "frame 0: rule 18 BoolMarker\n",
    },
    Row {
        name: "first tile longer than the rest",
        words: &["decode"],
        input: b"DKIF\0\0 \0VP90\0\0\0\0\0\0\0\0\0\0\0\0\0\0\0\0\0\0\0\0\x14\0\0\0\0\0\0\0\0\0\0\0\x83I\x83B\0\0\0\0\
\0\0\0\x04\0\x02\0\0\0\0\x05\0",
        status: 3,
        output: b"",
        note: "frame 0: rule 19 TileSize\n",
    },
    Row {
        name: "first tile of 0 bytes",
        words: &["decode"],
        input: b"DKIF\0\0 \0VP90\0\0\0\0\0\0\0\0\0\0\0\0\0\0\0\0\0\0\0\0\x14\0\0\0\0\0\0\0\0\0\0\0\x83I\x83B\0\0\0\0\
\0\0\0\x04\0\x02\0\0\0\0\0\0",
        status: 3,
        output: b"",
        note: "frame 0: rule 17 BoolEmpty\n",
    },
    Row {
        name: "a tile without rows",
        words: &["decode"],
        input: b"DKIF\0\0 \0VP90\0\0\0\0\0\0\0\0\0\0\0\0\0\0\0\0\0\0\0\0\x15\0\0\0\0\0\0\0\0\0\0\0\x83I\x83B\0\0\0\0\
\0\0\0\x04\0\x02\0\0\0\0\x01\0\0",
        status: 0,
        output: b"\x80\x80\x80",
        note: "",
    },
    Row {
        name: "hidden, then shown",
        words: &["decode"],
        input: b"DKIF\0\0 \0VP90\0\0\0\0\0\0\0\0\0\0\0\0\0\0\0\0\0\0\0\0\x15\0\0\0\0\0\0\0\0\0\0\0\x81I\x83B\0\0\0\0\
\0\0\0\0\0\x04\0\0\x88\xc1\x10\x01\xc1",
        status: 0,
        output: b"\x80\x80\x80",
        note: "",
    },
    Row {
        name: "index whose first byte differs is no index",
        words: &["decode"],
        input: b"DKIF\0\0 \0VP90\0\0\0\0\0\0\0\0\0\0\0\0\0\0\0\0\0\0\0\0$\0\0\0\0\0\0\0\0\0\0\0\x83I\x83B\0\0\0\0\0\0\
\0\0\0\x04\0\0\0\0\0\0\0\0\0\0\0\0\0\0\0\0\0\0\xc0\x10\x01\xc1",
        status: 0,
        output: b"\x80\x80\x80",
        note: "",
    },
    Row {
        name: "a slot shown three times",
        words: &["decode"],
        input: b"DKIF\0\0 \0VP90\0\0\0\0\0\0\0\0\0\0\0\0\0\0\0\0\0\0\0\0\x10\0\0\0\0\0\0\0\0\0\0\0\x83I\x83B\0\0\0\0\
\0\0\0\0\0\x04\0\0\x01\0\0\0\0\0\0\0\0\0\0\0\x88\x01\0\0\0\0\0\0\0\0\0\0\0\x88\x01\0\0\0\0\0\0\0\0\0\
\0\0\x88",
        status: 0,
        output: b"\x80\x80\x80\x80\x80\x80\x80\x80\x80\x80\x80\x80",
        note: "",
    },
    Row {
        name: "frames before a bad one are written",
        words: &["decode"],
        input: b"DKIF\0\0 \0VP90\0\0\0\0\0\0\0\0\0\0\0\0\0\0\0\0\0\0\0\0\x10\0\0\0\0\0\0\0\0\0\0\0\x83I\x83B\0\0\0\0\
\0\0\0\0\0\x04\0\0\x01\0\0\0\0\0\0\0\0\0\0\0@",
        status: 3,
        output: b"\x80\x80\x80",
        note: "frame 1: rule 7 FrameMarker\n",
    },
    Row {
        name: "depth 10",
        words: &["decode"],
        input: b"DKIF\0\0 \0VP90\0\0\0\0\0\0\0\0\0\0\0\0\0\0\0\0\0\0\0\0\x10\0\0\0\0\0\0\0\0\0\0\0\x93I\x83B\0\0\0\0\
\0\0\0\0\0\x02\0\0",
        status: 0,
        output: b"\0\x02\0\x02\0\x02",
        note: "",
    },
    Row {
        name: "4:4:4",
        words: &["decode"],
        input: b"DKIF\0\0 \0VP90\0\0\0\0\0\0\0\0\0\0\0\0\0\0\0\0\0\0\0\0\x11\0\0\0\0\0\0\0\0\0\0\0\xa3I\x83B\0\0\0\0\
\0\0\0\0\0\0\x80\0\0",
        status: 0,
        output: b"\x80\x80\x80",
        note: "",
    },
];

const ROWS_3: [Row; 10] = [
    Row {
        name: "depth 12 in 4:4:4",
        words: &["decode"],
        input: b"DKIF\0\0 \0VP90\0\0\0\0\0\0\0\0\0\0\0\0\0\0\0\0\0\0\0\0\x11\0\0\0\0\0\0\0\0\0\0\0\xb1\xa4\xc1\xa1@\0\
\0\0\0\0\0\0\0\0 \0\0",
        status: 0,
        output: b"\0\x08\0\x08\0\x08",
        note: "",
    },
    Row {
        name: "vertical prediction at the corner",
        words: &["decode"],
        input: b"DKIF\0\0 \0VP90\0\0\0\0\0\0\0\0\0\0\0\0\0\0\0\0\0\0\0\0\x10\0\0\0\0\0\0\0\0\0\0\0\x83I\x83B\0\0p\0p\
\0\0\0\0\x04\0#",
        status: 0,
        output: b"\x7f\x7f\x7f\x7f\x7f\x7f\x7f\x7f\x7f\x7f\x7f\x7f\x7f\x7f\x7f\x7f\x7f\x7f\x7f\x7f\x7f\x7f\x7f\x7f\x7f\
\x7f\x7f\x7f\x7f\x7f\x7f\x7f\x7f\x7f\x7f\x7f\x7f\x7f\x7f\x7f\x7f\x7f\x7f\x7f\x7f\x7f\x7f\x7f\x7f\x7f\
\x7f\x7f\x7f\x7f\x7f\x7f\x7f\x7f\x7f\x7f\x7f\x7f\x7f\x7f\x80\x80\x80\x80\x80\x80\x80\x80\x80\x80\x80\
\x80\x80\x80\x80\x80\x80\x80\x80\x80\x80\x80\x80\x80\x80\x80\x80\x80\x80\x80\x80\x80",
        note: "",
    },
    Row {
        name: "horizontal prediction at the corner",
        words: &["decode"],
        input: b"DKIF\0\0 \0VP90\0\0\0\0\0\0\0\0\0\0\0\0\0\0\0\0\0\0\0\0\x10\0\0\0\0\0\0\0\0\0\0\0\x83I\x83B\0\0p\0p\
\0\0\0\0\x04\0'",
        status: 0,
        output: b"\x81\x81\x81\x81\x81\x81\x81\x81\x81\x81\x81\x81\x81\x81\x81\x81\x81\x81\x81\x81\x81\x81\x81\x81\x81\
\x81\x81\x81\x81\x81\x81\x81\x81\x81\x81\x81\x81\x81\x81\x81\x81\x81\x81\x81\x81\x81\x81\x81\x81\x81\
\x81\x81\x81\x81\x81\x81\x81\x81\x81\x81\x81\x81\x81\x81\x80\x80\x80\x80\x80\x80\x80\x80\x80\x80\x80\
\x80\x80\x80\x80\x80\x80\x80\x80\x80\x80\x80\x80\x80\x80\x80\x80\x80\x80\x80\x80\x80",
        note: "",
    },
    Row {
        name: "true motion at the corner",
        words: &["decode"],
        input: b"DKIF\0\0 \0VP90\0\0\0\0\0\0\0\0\0\0\0\0\0\0\0\0\0\0\0\0\x11\0\0\0\0\0\0\0\0\0\0\0\x83I\x83B\0\0p\0p\
\0\0\0\0\x04\0\x1f\x80",
        status: 0,
        output: b"\x81\x81\x81\x81\x81\x81\x81\x81\x81\x81\x81\x81\x81\x81\x81\x81\x81\x81\x81\x81\x81\x81\x81\x81\x81\
\x81\x81\x81\x81\x81\x81\x81\x81\x81\x81\x81\x81\x81\x81\x81\x81\x81\x81\x81\x81\x81\x81\x81\x81\x81\
\x81\x81\x81\x81\x81\x81\x81\x81\x81\x81\x81\x81\x81\x81\x80\x80\x80\x80\x80\x80\x80\x80\x80\x80\x80\
\x80\x80\x80\x80\x80\x80\x80\x80\x80\x80\x80\x80\x80\x80\x80\x80\x80\x80\x80\x80\x80",
        note: "",
    },
    Row {
        name: "lossless, DC level 4",
        words: &["decode"],
        input: b"DKIF\0\0 \0VP90\0\0\0\0\0\0\0\0\0\0\0\0\0\0\0\0\0\0\0\0\x12\0\0\0\0\0\0\0\0\0\0\0\x83I\x83B\0\0p\0p\
\0\0\0\0\x04\0\x11\x9d\x80",
        status: 0,
        output: b"\x81\x81\x81\x81\x81\x81\x81\x81\x81\x81\x81\x81\x81\x81\x81\x81\x81\x81\x81\x81\x81\x81\x81\x81\x81\
\x81\x81\x81\x81\x81\x81\x81\x81\x81\x81\x81\x81\x81\x81\x81\x81\x81\x81\x81\x81\x81\x81\x81\x81\x81\
\x81\x81\x81\x81\x81\x81\x81\x81\x81\x81\x81\x81\x81\x81\x80\x80\x80\x80\x80\x80\x80\x80\x80\x80\x80\
\x80\x80\x80\x80\x80\x80\x80\x80\x80\x80\x80\x80\x80\x80\x80\x80\x80\x80\x80\x80\x80",
        note: "",
    },
    Row {
        name: "base 1, DC level 8",
        words: &["decode"],
        input: b"DKIF\0\0 \0VP90\0\0\0\0\0\0\0\0\0\0\0\0\0\0\0\0\0\0\0\0\x12\0\0\0\0\0\0\0\0\0\0\0\x83I\x83B\0\0p\0p\
\0\0\x80\0\x04\0\x11\xbd\x84",
        status: 0,
        output: b"\x82\x82\x82\x82\x82\x82\x82\x82\x82\x82\x82\x82\x82\x82\x82\x82\x82\x82\x82\x82\x82\x82\x82\x82\x82\
\x82\x82\x82\x82\x82\x82\x82\x82\x82\x82\x82\x82\x82\x82\x82\x82\x82\x82\x82\x82\x82\x82\x82\x82\x82\
\x82\x82\x82\x82\x82\x82\x82\x82\x82\x82\x82\x82\x82\x82\x80\x80\x80\x80\x80\x80\x80\x80\x80\x80\x80\
\x80\x80\x80\x80\x80\x80\x80\x80\x80\x80\x80\x80\x80\x80\x80\x80\x80\x80\x80\x80\x80",
        note: "",
    },
    Row {
        name: "base 255, DC level 24",
        words: &["decode"],
        input: b"DKIF\0\0 \0VP90\0\0\0\0\0\0\0\0\0\0\0\0\0\0\0\0\0\0\0\0\x13\0\0\0\0\0\0\0\0\0\0\0\x83I\x83B\0\0p\0p\
\0\x7f\x80\0\x04\0\x11\xbf\xfdy",
        status: 0,
        output: b"\xff\xff\xff\xff\xff\xff\xff\xff\xff\xff\xff\xff\xff\xff\xff\xff\xff\xff\xff\xff\xff\xff\xff\xff\xff\
\xff\xff\xff\xff\xff\xff\xff\xff\xff\xff\xff\xff\xff\xff\xff\xff\xff\xff\xff\xff\xff\xff\xff\xff\xff\
\xff\xff\xff\xff\xff\xff\xff\xff\xff\xff\xff\xff\xff\xff\x80\x80\x80\x80\x80\x80\x80\x80\x80\x80\x80\
\x80\x80\x80\x80\x80\x80\x80\x80\x80\x80\x80\x80\x80\x80\x80\x80\x80\x80\x80\x80\x80",
        note: "",
    },
    Row {
        name: "base 255, DC level 25: a coefficient does not fit",
        words: &["decode"],
        input: b"DKIF\0\0 \0VP90\0\0\0\0\0\0\0\0\0\0\0\0\0\0\0\0\0\0\0\0\x14\0\0\0\0\0\0\0\0\0\0\0\x83I\x83B\0\0p\0p\
\0\x7f\x80\0\x04\0\x11\xbf\xfd\xc2\0",
        status: 3,
        output: b"",
        note: "frame 0: rule 22 CoefRange\n",
    },
    Row {
        name: "base 255, levels 24 and 17: a stored value does not fit",
        words: &["decode"],
        input: b"DKIF\0\0 \0VP90\0\0\0\0\0\0\0\0\0\0\0\0\0\0\0\0\0\0\0\0\x14\0\0\0\0\0\0\0\0\0\0\0\x83I\x83B\0\0p\0p\
\0\x7f\x80\0\x04\0\x11\xbf\xfd\x98\x98",
        status: 3,
        output: b"",
        note: "frame 0: rule 23 TransformRange\n",
    },
    Row {
        name: "reference more than 16 times smaller",
        words: &["decode"],
        input: b"DKIF\0\0 \0VP90\0\0\0\0\0\0\0\0\0\0\0\0\0\0\0\0\0\0\0\0\x10\0\0\0\0\0\0\0\0\0\0\0\x83I\x83B\0\0p\0p\
\0\0\0\0\x04\0\0\x10\0\0\0\0\0\0\0\0\0\0\0\x87\0\0\0\x01\x0e\0\x0e\x10\0\0\0\0\x08\0\x0d",
        status: 3,
        output: b"\x80\x80\x80\x80\x80\x80\x80\x80\x80\x80\x80\x80\x80\x80\x80\x80\x80\x80\x80\x80\x80\x80\x80\x80\x80\
\x80\x80\x80\x80\x80\x80\x80\x80\x80\x80\x80\x80\x80\x80\x80\x80\x80\x80\x80\x80\x80\x80\x80\x80\x80\
\x80\x80\x80\x80\x80\x80\x80\x80\x80\x80\x80\x80\x80\x80\x80\x80\x80\x80\x80\x80\x80\x80\x80\x80\x80\
\x80\x80\x80\x80\x80\x80\x80\x80\x80\x80\x80\x80\x80\x80\x80\x80\x80\x80\x80\x80\x80",
        note: "frame 1: rule 14 RefScale\n",
    },
];

const ROWS_4: [Row; 10] = [
    Row {
        name: "header cut to 3 bytes",
        words: &["decode"],
        input: b"DKI",
        status: 3,
        output: b"",
        note: "frame 0: rule 2 IvfHeader\n",
    },
    Row {
        name: "header cut to 4 bytes",
        words: &["decode"],
        input: b"DKIF",
        status: 3,
        output: b"",
        note: "frame 0: rule 2 IvfHeader\n",
    },
    Row {
        name: "header cut to 31 bytes",
        words: &["decode"],
        input: b"DKIF\0\0 \0VP90\0\0\0\0\0\0\0\0\0\0\0\0\0\0\0\0\0\0\0",
        status: 3,
        output: b"",
        note: "frame 0: rule 2 IvfHeader\n",
    },
    Row {
        name: "header length 31",
        words: &["decode"],
        input: b"DKIF\0\0\x1f\0VP90\0\0\0\0\0\0\0\0\0\0\0\0\0\0\0\0\0\0\0\0",
        status: 3,
        output: b"",
        note: "frame 0: rule 2 IvfHeader\n",
    },
    Row {
        name: "header length 33, file of 32",
        words: &["decode"],
        input: b"DKIF\0\0!\0VP90\0\0\0\0\0\0\0\0\0\0\0\0\0\0\0\0\0\0\0\0",
        status: 3,
        output: b"",
        note: "frame 0: rule 2 IvfHeader\n",
    },
    Row {
        name: "header length 40 is skipped",
        words: &["decode"],
        input: b"DKIF\0\0(\0VP90\0\0\0\0\0\0\0\0\0\0\0\0\0\0\0\0\0\0\0\0\0\0\0\0\0\0\0\0",
        status: 0,
        output: b"",
        note: "",
    },
    Row {
        name: "packet header cut to 11 bytes",
        words: &["decode"],
        input: b"DKIF\0\0 \0VP90\0\0\0\0\0\0\0\0\0\0\0\0\0\0\0\0\0\0\0\0\0\0\0\0\0\0\0\0\0\0\0",
        status: 3,
        output: b"",
        note: "frame 0: rule 4 IvfTruncated\n",
    },
    Row {
        name: "empty payload holds no frame",
        words: &["decode"],
        input: b"DKIF\0\0 \0VP90\0\0\0\0\0\0\0\0\0\0\0\0\0\0\0\0\0\0\0\0\0\0\0\0\0\0\0\0\0\0\0\0",
        status: 0,
        output: b"",
        note: "",
    },
    Row {
        name: "plain: one grey sample",
        words: &["decode", "--plain"],
        input: b"DKIF\0\0 \0VP90\0\0\0\0\0\0\0\0\0\0\0\0\0\0\0\0\0\0\0\0\x10\0\0\0\0\0\0\0\0\0\0\0\x83I\x83B\0\0\0\0\
\0\0\0\0\0\x04\0\0",
        status: 0,
        output: b"\x80\x80\x80",
        note: "",
    },
    Row {
        name: "two key frames",
        words: &["decode"],
        input: b"DKIF\0\0 \0VP90\0\0\0\0\0\0\0\0\0\0\0\0\0\0\0\0\0\0\0\0\x10\0\0\0\0\0\0\0\0\0\0\0\x83I\x83B\0\0\0\0\
\0\0\0\0\0\x04\0\0\x10\0\0\0\0\0\0\0\0\0\0\0\x83I\x83B\0\0\0\0\0\0\0\0\0\x04\0\0",
        status: 0,
        output: b"\x80\x80\x80\x80\x80\x80",
        note: "",
    },
];

const ROWS_5: [Row; 2] = [
    Row {
        name: "words: decode --workers 0",
        words: &["decode", "--workers", "0"],
        input: b"DKIF\0\0 \0VP90\0\0\0\0\0\0\0\0\0\0\0\0\0\0\0\0\0\0\0\0",
        status: 2,
        output: b"",
        note: "usage: vp9dec list / decode / make / trial\n",
    },
    Row {
        name: "greatest size, no tile",
        words: &["decode"],
        input: b"DKIF\0\0 \0VP90\0\0\0\0\0\0\0\0\0\0\0\0\0\0\0\0\0\0\0\0\x0f\0\0\0\0\0\0\0\0\0\0\0\x83I\x83B\x0f\xff\
\xff\xff\xf0\0\0\0\0\x02\0",
        status: 3,
        output: b"",
        note: "frame 0: rule 19 TileSize\n",
    },
];

pub const TABLES: [&[Row]; 6] = [&ROWS_0, &ROWS_1, &ROWS_2, &ROWS_3, &ROWS_4, &ROWS_5];

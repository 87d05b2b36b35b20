//! Written by tools/vectors.py listed, from samples/rows/decode.tsv.

use super::{Frame, Row, Told};
use vp9_types::{InterMode, InterpFilter, IntraMode, Partition, ReferenceFrame};

const SPLIT: Partition = Partition::Split;

const WHOLE: Partition = Partition::Whole;

const GREY: Told = Told::Intra {
    skip: false,
    luma: [IntraMode::Dc; 4],
    chroma: IntraMode::Dc,
    levels: &[],
};

const HORIZONTAL: Partition = Partition::Horizontal;

const STILL: Told = Told::Inter {
    skip: true,
    reference: ReferenceFrame::Last,
    filter: InterpFilter::Regular,
    modes: [InterMode::Zero; 4],
    differences: [[0, 0]; 4],
};

pub const ROWS: [Row; 18] = [
    Row {
        name: "one key frame of 1x1",
        frames: &[Frame {
            bytes: b"\x83I\x83B\0\0\0\0\0\0\0\0\0\x04\0\0",
            written: b"\x83I\x83B\0\0\0\0\0\0\0\0\0\x08\0\0\0\0",
            own_size: false,
            partitions: &[SPLIT, SPLIT, SPLIT, WHOLE],
            blocks: &[GREY],
        }],
    },
    Row {
        name: "one key frame of 8x8",
        frames: &[Frame {
            bytes: b"\x83I\x83B\0\0p\0p\0\0\0\0\x04\0\0",
            written: b"\x83I\x83B\0\0p\0p\0\0\0\0\x08\0\0\0\0",
            own_size: false,
            partitions: &[SPLIT, SPLIT, SPLIT, WHOLE],
            blocks: &[GREY],
        }],
    },
    Row {
        name: "depth 10",
        frames: &[Frame {
            bytes: b"\x93I\x83B\0\0\0\0\0\0\0\0\0\x02\0\0",
            written: b"\x93I\x83B\0\0\0\0\0\0\0\0\0\x04\0\0\0\0",
            own_size: false,
            partitions: &[SPLIT, SPLIT, SPLIT, WHOLE],
            blocks: &[GREY],
        }],
    },
    Row {
        name: "4:4:4",
        frames: &[Frame {
            bytes: b"\xa3I\x83B\0\0\0\0\0\0\0\0\0\0\x80\0\0",
            written: b"\xa3I\x83B\0\0\0\0\0\0\0\0\0\x01\0\0\0\0\0",
            own_size: false,
            partitions: &[SPLIT, SPLIT, SPLIT, WHOLE],
            blocks: &[GREY],
        }],
    },
    Row {
        name: "depth 12 in 4:4:4",
        frames: &[Frame {
            bytes: b"\xb1\xa4\xc1\xa1@\0\0\0\0\0\0\0\0\0 \0\0",
            written: b"\xb1\xa4\xc1\xa1@\0\0\0\0\0\0\0\0\0@\0\0\0\0",
            own_size: false,
            partitions: &[SPLIT, SPLIT, SPLIT, WHOLE],
            blocks: &[GREY],
        }],
    },
    Row {
        name: "vertical prediction at the corner",
        frames: &[Frame {
            bytes: b"\x83I\x83B\0\0p\0p\0\0\0\0\x04\0#",
            written: b"\x83I\x83B\0\0p\0p\0\0\0\0\x08\0\0\"\xc0\0",
            own_size: false,
            partitions: &[SPLIT, SPLIT, SPLIT, WHOLE],
            blocks: &[Told::Intra {
                skip: false,
                luma: [IntraMode::V; 4],
                chroma: IntraMode::Dc,
                levels: &[],
            }],
        }],
    },
    Row {
        name: "horizontal prediction at the corner",
        frames: &[Frame {
            bytes: b"\x83I\x83B\0\0p\0p\0\0\0\0\x04\0'",
            written: b"\x83I\x83B\0\0p\0p\0\0\0\0\x08\0\0&\xc0\0",
            own_size: false,
            partitions: &[SPLIT, SPLIT, SPLIT, WHOLE],
            blocks: &[Told::Intra {
                skip: false,
                luma: [IntraMode::H; 4],
                chroma: IntraMode::Dc,
                levels: &[],
            }],
        }],
    },
    Row {
        name: "true motion at the corner",
        frames: &[Frame {
            bytes: b"\x83I\x83B\0\0p\0p\0\0\0\0\x04\0\x1f\x80",
            written: b"\x83I\x83B\0\0p\0p\0\0\0\0\x08\0\0\x1f\x80\0",
            own_size: false,
            partitions: &[SPLIT, SPLIT, SPLIT, WHOLE],
            blocks: &[Told::Intra {
                skip: false,
                luma: [IntraMode::Tm; 4],
                chroma: IntraMode::Dc,
                levels: &[],
            }],
        }],
    },
    Row {
        name: "lossless, DC level 4",
        frames: &[Frame {
            bytes: b"\x83I\x83B\0\0p\0p\0\0\0\0\x04\0\x11\x9d\x80",
            written: b"\x83I\x83B\0\0p\0p\0\0\0\0\x08\0\0\x11\x9d\x80\0",
            own_size: false,
            partitions: &[SPLIT, SPLIT, SPLIT, WHOLE],
            blocks: &[Told::Intra {
                skip: false,
                luma: [IntraMode::Dc; 4],
                chroma: IntraMode::Dc,
                levels: &[&[&[4]]],
            }],
        }],
    },
    Row {
        name: "base 1, DC level 8",
        frames: &[Frame {
            bytes: b"\x83I\x83B\0\0p\0p\0\0\x80\0\x04\0\x11\xbd\x84",
            written: b"\x83I\x83B\0\0p\0p\0\0\x80\0\x08\0\0\x11\xbd\x84\0\0",
            own_size: false,
            partitions: &[SPLIT, SPLIT, SPLIT, WHOLE],
            blocks: &[Told::Intra {
                skip: false,
                luma: [IntraMode::Dc; 4],
                chroma: IntraMode::Dc,
                levels: &[&[&[8]]],
            }],
        }],
    },
    Row {
        name: "base 255, DC level 24",
        frames: &[Frame {
            bytes: b"\x83I\x83B\0\0p\0p\0\x7f\x80\0\x04\0\x11\xbf\xfdy",
            written: b"\x83I\x83B\0\0p\0p\0\x7f\x80\0\x08\0\0\x11\xbf\xfdy\0\0",
            own_size: false,
            partitions: &[SPLIT, SPLIT, SPLIT, WHOLE],
            blocks: &[Told::Intra {
                skip: false,
                luma: [IntraMode::Dc; 4],
                chroma: IntraMode::Dc,
                levels: &[&[&[24]]],
            }],
        }],
    },
    Row {
        name: "base 255, DC level 25: a coefficient does not fit",
        frames: &[Frame {
            bytes: b"\x83I\x83B\0\0p\0p\0\x7f\x80\0\x04\0\x11\xbf\xfd\xc2\0",
            written: b"\x83I\x83B\0\0p\0p\0\x7f\x80\0\x08\0\0\x11\xbf\xfd\xc2\0\0",
            own_size: false,
            partitions: &[SPLIT, SPLIT, SPLIT, WHOLE],
            blocks: &[Told::Intra {
                skip: false,
                luma: [IntraMode::Dc; 4],
                chroma: IntraMode::Dc,
                levels: &[&[&[25]]],
            }],
        }],
    },
    Row {
        name: "base 255, levels 24 and 17: a stored value does not fit",
        frames: &[Frame {
            bytes: b"\x83I\x83B\0\0p\0p\0\x7f\x80\0\x04\0\x11\xbf\xfd\x98\x98",
            written: b"\x83I\x83B\0\0p\0p\0\x7f\x80\0\x08\0\0\x11\xbf\xfd\x98\x98\0\0",
            own_size: false,
            partitions: &[SPLIT, SPLIT, SPLIT, WHOLE],
            blocks: &[Told::Intra {
                skip: false,
                luma: [IntraMode::Dc; 4],
                chroma: IntraMode::Dc,
                levels: &[&[&[24, 17]]],
            }],
        }],
    },
    Row {
        name: "a vector of 16384",
        frames: &[
            Frame {
                bytes: b"\x83I\x83B\0\x03\xf0\x03\xf0\0\0\0\0\x04\0\0",
                written: b"\x83I\x83B\0\x03\xf0\x03\xf0\0\0\0\0\x08\0\0\0\0\0\0\0\0\0\0\0\0\0\0\0\0\0\0\0\0\0",
                own_size: false,
                partitions: &[WHOLE],
                blocks: &[GREY],
            },
            Frame {
                bytes: b"\x87\0\0\n@\0\0\0\0 \0&\xb7\xff\xff\xff\xfd",
                written: b"\x87\0\0\n@\0\0\0\0@\0\0&\xb7\xff\xff\xff\xfc\xd8\0",
                own_size: false,
                partitions: &[WHOLE],
                blocks: &[Told::Inter {
                    skip: false,
                    reference: ReferenceFrame::Last,
                    filter: InterpFilter::Regular,
                    modes: [InterMode::New; 4],
                    differences: [[0, 16384]; 4],
                }],
            },
        ],
    },
    Row {
        name: "reference 16 times smaller",
        frames: &[
            Frame {
                bytes: b"\x83I\x83B\0\0p\0p\0\0\0\0\x04\0\0",
                written: b"\x83I\x83B\0\0p\0p\0\0\0\0\x08\0\0\0\0",
                own_size: false,
                partitions: &[SPLIT, SPLIT, SPLIT, WHOLE],
                blocks: &[GREY],
            },
            Frame {
                bytes: b"\x87\0\0\0\0\xfe\0\x0e\x10\0\0\0\0\x08\0\x0c\xe9\n",
                written: b"\x87\0\0\0\0\xfe\0\x0e\x10\0\0\0\0\x10\0\0\x0c\xe9\n\0",
                own_size: true,
                partitions: &[HORIZONTAL, HORIZONTAL],
                blocks: &[STILL, STILL],
            },
        ],
    },
    Row {
        name: "a vector out of range in both tiles",
        frames: &[
            Frame {
                bytes: b"\x83I\x83B\0\x1f\xf0\x03\xf0\0\0\0\0\x02\0\0",
                written: b"\x83I\x83B\0\x1f\xf0\x03\xf0\0\0\0\0\x04\0\0\0\0\0\0\0\0\0\0\0\0\0\0\0\0\0\0\0\0\0\0\0\0\0\0\0\0\0\0\
\0\0\0\0\0\0\0\0\0\0\0\0\0\0\0\0\0\0\0\0\0\0\0\0\0\0\0\0\0\0\0\0\0\0\0\0\0\0\0\0\0\0\0\0\0\0\0\0\0\0\
\0\0\0\0\0\0\0\0\0\0\0\0\0\0\0\0\0\0\0\0\0\0\0\0\0\0\0\0\0\0\0\0\0\0\0\0\0\0\0\0\0\0\0\0\0\0\0\0\0\0\
\0\0\0\0\0\0\0\0\0\0\0",
                own_size: false,
                partitions: &[WHOLE, WHOLE, WHOLE, WHOLE, WHOLE, WHOLE, WHOLE, WHOLE],
                blocks: &[GREY, GREY, GREY, GREY, GREY, GREY, GREY, GREY],
            },
            Frame {
                bytes: b"\x87\0\0\n@\0\0 \0\x10\0\0\0\0\x06&\xb7\xff\xff\xff\xfd&\xb7\xff\xff\xff\xfd",
                written: b"\x87\0\0\n@\0\0 \0 \0\0\0\0\0\x07&\xb7\xff\xff\xff\xfc\xd8&\xb7\xff\xff\xff\xfc\xd8\0",
                own_size: false,
                partitions: &[WHOLE, WHOLE],
                blocks: &[
                    Told::Inter {
                        skip: false,
                        reference: ReferenceFrame::Last,
                        filter: InterpFilter::Regular,
                        modes: [InterMode::New; 4],
                        differences: [[0, 16384]; 4],
                    },
                    Told::Inter {
                        skip: false,
                        reference: ReferenceFrame::Last,
                        filter: InterpFilter::Regular,
                        modes: [InterMode::New; 4],
                        differences: [[0, 16384]; 4],
                    },
                ],
            },
        ],
    },
    Row {
        name: "a block names a reference out of range",
        frames: &[
            Frame {
                bytes: b"\x83I\x83B\0\0p\0p\0\0\0\0\x04\0\0",
                written: b"\x83I\x83B\0\0p\0p\0\0\0\0\x08\0\0\0\0",
                own_size: false,
                partitions: &[SPLIT, SPLIT, SPLIT, WHOLE],
                blocks: &[GREY],
            },
            Frame {
                bytes: b"\x85\xa4\xc1\xa1\0\x80C\x80\x03\x80\0\0\0\0 \0\0",
                written: b"\x85\xa4\xc1\xa1\0\x80C\x80\x03\x80\0\0\0\0@\0\0\0\0\0\0\0\0\0\0",
                own_size: false,
                partitions: &[HORIZONTAL, HORIZONTAL, SPLIT, SPLIT, SPLIT, WHOLE],
                blocks: &[GREY, GREY, GREY],
            },
            Frame {
                bytes: b"\x87\0\x02 \x01\x0e\0\x0e\x10\0\0\0\0\x08\0\x10",
                written: b"\x87\0\x02 \x01\x0e\0\x0e\x10\0\0\0\0\x10\0\0\x0f0",
                own_size: true,
                partitions: &[HORIZONTAL],
                blocks: &[Told::Inter {
                    skip: true,
                    reference: ReferenceFrame::Golden,
                    filter: InterpFilter::Regular,
                    modes: [InterMode::Zero; 4],
                    differences: [[0, 0]; 4],
                }],
            },
        ],
    },
    Row {
        name: "no block names the reference out of range",
        frames: &[
            Frame {
                bytes: b"\x83I\x83B\0\0p\0p\0\0\0\0\x04\0\0",
                written: b"\x83I\x83B\0\0p\0p\0\0\0\0\x08\0\0\0\0",
                own_size: false,
                partitions: &[SPLIT, SPLIT, SPLIT, WHOLE],
                blocks: &[GREY],
            },
            Frame {
                bytes: b"\x85\xa4\xc1\xa1\0\x80C\x80\x03\x80\0\0\0\0 \0\0",
                written: b"\x85\xa4\xc1\xa1\0\x80C\x80\x03\x80\0\0\0\0@\0\0\0\0\0\0\0\0\0\0",
                own_size: false,
                partitions: &[HORIZONTAL, HORIZONTAL, SPLIT, SPLIT, SPLIT, WHOLE],
                blocks: &[GREY, GREY, GREY],
            },
            Frame {
                bytes: b"\x87\0\x02 \x01\x0e\0\x0e\x10\0\0\0\0\x08\0\x0c\xe9\x0c\xd4\0",
                written: b"\x87\0\x02 \x01\x0e\0\x0e\x10\0\0\0\0\x10\0\0\x0c\xe9\x0c\xd4\0",
                own_size: true,
                partitions: &[HORIZONTAL, HORIZONTAL, SPLIT, SPLIT, SPLIT, WHOLE],
                blocks: &[STILL, STILL, STILL],
            },
        ],
    },
];

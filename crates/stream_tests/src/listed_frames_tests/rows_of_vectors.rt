//! Written by tools/vectors.py listed, from samples/rows/decode.tsv.

use super::{Frame, Row, Told};
use vp9_types::{InterMode, InterpFilter, IntraMode, Partition, ReferenceFrame};

const WHOLE: Partition = Partition::Whole;

const GREY: Told = Told::Intra {
    skip: false,
    luma: [IntraMode::Dc; 4],
    chroma: IntraMode::Dc,
    levels: &[],
};

const FIRST_PARTITIONS: [Partition; 8] = [WHOLE, WHOLE, WHOLE, WHOLE, WHOLE, WHOLE, WHOLE, WHOLE];

const FIRST_BLOCKS: [Told; 8] = [
    Told::Intra {
        skip: false,
        luma: [IntraMode::Dc; 4],
        chroma: IntraMode::Dc,
        levels: &[&[&[288]], &[&[288]], &[&[288]]],
    },
    GREY,
    GREY,
    GREY,
    GREY,
    GREY,
    GREY,
    GREY,
];

const VERTICAL: Partition = Partition::Vertical;

const SPLIT: Partition = Partition::Split;

const HORIZONTAL: Partition = Partition::Horizontal;

const SECOND_PARTITIONS: [Partition; 6] = [
    VERTICAL, SPLIT, VERTICAL, VERTICAL, VERTICAL, HORIZONTAL,
];

const SECOND_BLOCKS: [Told; 10] = [
    Told::Inter {
        skip: true,
        reference: ReferenceFrame::Last,
        filter: InterpFilter::Regular,
        modes: [InterMode::New; 4],
        differences: [[-148, 145]; 4],
    },
    Told::Inter {
        skip: true,
        reference: ReferenceFrame::Altref,
        filter: InterpFilter::Regular,
        modes: [InterMode::New; 4],
        differences: [[-158, 174]; 4],
    },
    Told::Inter {
        skip: true,
        reference: ReferenceFrame::Golden,
        filter: InterpFilter::Regular,
        modes: [InterMode::New; 4],
        differences: [[166, 132]; 4],
    },
    Told::Inter {
        skip: true,
        reference: ReferenceFrame::Altref,
        filter: InterpFilter::Regular,
        modes: [InterMode::New; 4],
        differences: [[-198, 160]; 4],
    },
    Told::Inter {
        skip: true,
        reference: ReferenceFrame::Golden,
        filter: InterpFilter::Regular,
        modes: [InterMode::New; 4],
        differences: [[-138, 138]; 4],
    },
    Told::Inter {
        skip: true,
        reference: ReferenceFrame::Altref,
        filter: InterpFilter::Regular,
        modes: [InterMode::New; 4],
        differences: [[-238, -146]; 4],
    },
    Told::Inter {
        skip: true,
        reference: ReferenceFrame::Last,
        filter: InterpFilter::Regular,
        modes: [InterMode::New; 4],
        differences: [[-224, -242]; 4],
    },
    Told::Inter {
        skip: true,
        reference: ReferenceFrame::Golden,
        filter: InterpFilter::Regular,
        modes: [InterMode::New; 4],
        differences: [[-132, 176]; 4],
    },
    Told::Inter {
        skip: true,
        reference: ReferenceFrame::Last,
        filter: InterpFilter::Regular,
        modes: [InterMode::New; 4],
        differences: [[166, 142]; 4],
    },
    Told::Inter {
        skip: true,
        reference: ReferenceFrame::Last,
        filter: InterpFilter::Regular,
        modes: [InterMode::New; 4],
        differences: [[156, -234]; 4],
    },
];

const THIRD_PARTITIONS: [Partition; 2] = [WHOLE, WHOLE];

const THIRD_BLOCKS: [Told; 2] = [
    Told::Inter {
        skip: true,
        reference: ReferenceFrame::Golden,
        filter: InterpFilter::Regular,
        modes: [InterMode::New; 4],
        differences: [[-477, -450]; 4],
    },
    Told::Inter {
        skip: true,
        reference: ReferenceFrame::Altref,
        filter: InterpFilter::Regular,
        modes: [InterMode::New; 4],
        differences: [[-408, 312]; 4],
    },
];

const FOURTH_PARTITIONS: [Partition; 30] = [
    SPLIT, SPLIT, SPLIT, VERTICAL, HORIZONTAL, HORIZONTAL, SPLIT, SPLIT, HORIZONTAL, SPLIT, WHOLE,
    HORIZONTAL, HORIZONTAL, HORIZONTAL, SPLIT, VERTICAL, SPLIT, HORIZONTAL, SPLIT, SPLIT, SPLIT,
    SPLIT, HORIZONTAL, VERTICAL, HORIZONTAL, HORIZONTAL, VERTICAL, HORIZONTAL, VERTICAL, VERTICAL,
];

const FOURTH_BLOCKS: [Told; 30] = [
    Told::Inter {
        skip: true,
        reference: ReferenceFrame::Altref,
        filter: InterpFilter::Regular,
        modes: [InterMode::New; 4],
        differences: [[-897, 712], [712, 811], [-897, 712], [712, 811]],
    },
    Told::Inter {
        skip: true,
        reference: ReferenceFrame::Last,
        filter: InterpFilter::Regular,
        modes: [InterMode::New; 4],
        differences: [[956, -816], [956, -816], [-894, 658], [-894, 658]],
    },
    Told::Inter {
        skip: true,
        reference: ReferenceFrame::Altref,
        filter: InterpFilter::Regular,
        modes: [InterMode::New; 4],
        differences: [[966, 1012], [966, 1012], [-568, -728], [-568, -728]],
    },
    Told::Inter {
        skip: true,
        reference: ReferenceFrame::Altref,
        filter: InterpFilter::Regular,
        modes: [InterMode::New; 4],
        differences: [[-930, 852], [518, 744], [902, 756], [760, 704]],
    },
    Told::Inter {
        skip: true,
        reference: ReferenceFrame::Last,
        filter: InterpFilter::Regular,
        modes: [InterMode::New; 4],
        differences: [[958, 756], [958, 756], [-990, -680], [-990, -680]],
    },
    Told::Inter {
        skip: true,
        reference: ReferenceFrame::Last,
        filter: InterpFilter::Regular,
        modes: [InterMode::New; 4],
        differences: [[524, 674], [860, 744], [-906, 888], [928, -692]],
    },
    Told::Inter {
        skip: true,
        reference: ReferenceFrame::Altref,
        filter: InterpFilter::Regular,
        modes: [InterMode::New; 4],
        differences: [[774, 890]; 4],
    },
    Told::Inter {
        skip: true,
        reference: ReferenceFrame::Last,
        filter: InterpFilter::Regular,
        modes: [InterMode::New; 4],
        differences: [[-596, -692], [-596, -692], [-908, -742], [-908, -742]],
    },
    Told::Inter {
        skip: true,
        reference: ReferenceFrame::Altref,
        filter: InterpFilter::Regular,
        modes: [InterMode::New; 4],
        differences: [[654, -804]; 4],
    },
    Told::Inter {
        skip: true,
        reference: ReferenceFrame::Last,
        filter: InterpFilter::Regular,
        modes: [InterMode::New; 4],
        differences: [[820, 814]; 4],
    },
    Told::Inter {
        skip: true,
        reference: ReferenceFrame::Last,
        filter: InterpFilter::Regular,
        modes: [InterMode::New; 4],
        differences: [[928, -950]; 4],
    },
    Told::Inter {
        skip: true,
        reference: ReferenceFrame::Golden,
        filter: InterpFilter::Regular,
        modes: [InterMode::New; 4],
        differences: [[842, -916]; 4],
    },
    Told::Inter {
        skip: true,
        reference: ReferenceFrame::Altref,
        filter: InterpFilter::Regular,
        modes: [InterMode::New; 4],
        differences: [[828, -556]; 4],
    },
    Told::Inter {
        skip: true,
        reference: ReferenceFrame::Last,
        filter: InterpFilter::Regular,
        modes: [InterMode::New; 4],
        differences: [[760, 808]; 4],
    },
    Told::Inter {
        skip: true,
        reference: ReferenceFrame::Golden,
        filter: InterpFilter::Regular,
        modes: [InterMode::New; 4],
        differences: [[-696, -648], [-696, -648], [-522, -774], [-522, -774]],
    },
    Told::Inter {
        skip: true,
        reference: ReferenceFrame::Altref,
        filter: InterpFilter::Regular,
        modes: [InterMode::New; 4],
        differences: [[-622, -628], [-930, -662], [846, -752], [-592, 1018]],
    },
    Told::Inter {
        skip: true,
        reference: ReferenceFrame::Altref,
        filter: InterpFilter::Regular,
        modes: [InterMode::New; 4],
        differences: [[636, 988], [972, -680], [866, 578], [-572, -528]],
    },
    Told::Inter {
        skip: true,
        reference: ReferenceFrame::Golden,
        filter: InterpFilter::Regular,
        modes: [InterMode::New; 4],
        differences: [[768, 774], [-674, 732], [692, -696], [-788, -622]],
    },
    Told::Inter {
        skip: true,
        reference: ReferenceFrame::Last,
        filter: InterpFilter::Regular,
        modes: [InterMode::New; 4],
        differences: [[800, 684], [800, 684], [-730, 934], [-730, 934]],
    },
    Told::Inter {
        skip: true,
        reference: ReferenceFrame::Golden,
        filter: InterpFilter::Regular,
        modes: [InterMode::New; 4],
        differences: [[-1012, -954], [-668, 780], [-1012, -954], [-668, 780]],
    },
    Told::Inter {
        skip: true,
        reference: ReferenceFrame::Last,
        filter: InterpFilter::Regular,
        modes: [InterMode::New; 4],
        differences: [[634, 570], [634, 570], [974, 774], [974, 774]],
    },
    Told::Inter {
        skip: true,
        reference: ReferenceFrame::Last,
        filter: InterpFilter::Regular,
        modes: [InterMode::New; 4],
        differences: [[778, -540], [778, -540], [-802, -804], [-802, -804]],
    },
    Told::Inter {
        skip: true,
        reference: ReferenceFrame::Altref,
        filter: InterpFilter::Regular,
        modes: [InterMode::New; 4],
        differences: [[920, -900]; 4],
    },
    Told::Inter {
        skip: true,
        reference: ReferenceFrame::Golden,
        filter: InterpFilter::Regular,
        modes: [InterMode::New; 4],
        differences: [[-920, -712]; 4],
    },
    Told::Inter {
        skip: true,
        reference: ReferenceFrame::Golden,
        filter: InterpFilter::Regular,
        modes: [InterMode::New; 4],
        differences: [[940, -608]; 4],
    },
    Told::Inter {
        skip: true,
        reference: ReferenceFrame::Golden,
        filter: InterpFilter::Regular,
        modes: [InterMode::New; 4],
        differences: [[808, 514]; 4],
    },
    Told::Inter {
        skip: true,
        reference: ReferenceFrame::Last,
        filter: InterpFilter::Regular,
        modes: [InterMode::New; 4],
        differences: [[-930, -630]; 4],
    },
    Told::Inter {
        skip: true,
        reference: ReferenceFrame::Last,
        filter: InterpFilter::Regular,
        modes: [InterMode::New; 4],
        differences: [[-994, 802]; 4],
    },
    Told::Inter {
        skip: true,
        reference: ReferenceFrame::Last,
        filter: InterpFilter::Regular,
        modes: [InterMode::New; 4],
        differences: [[544, 680]; 4],
    },
    Told::Inter {
        skip: true,
        reference: ReferenceFrame::Golden,
        filter: InterpFilter::Regular,
        modes: [InterMode::New; 4],
        differences: [[-722, -668]; 4],
    },
];

const FIFTH_PARTITIONS: [Partition; 6] = [VERTICAL, SPLIT, HORIZONTAL, VERTICAL, WHOLE, VERTICAL];

const FIFTH_BLOCKS: [Told; 9] = [
    Told::Inter {
        skip: true,
        reference: ReferenceFrame::Last,
        filter: InterpFilter::Regular,
        modes: [InterMode::New; 4],
        differences: [[1570, 1893]; 4],
    },
    Told::Inter {
        skip: true,
        reference: ReferenceFrame::Altref,
        filter: InterpFilter::Regular,
        modes: [InterMode::New; 4],
        differences: [[-1112, 1644]; 4],
    },
    Told::Inter {
        skip: true,
        reference: ReferenceFrame::Last,
        filter: InterpFilter::Regular,
        modes: [InterMode::New; 4],
        differences: [[-1052, -1638]; 4],
    },
    Told::Inter {
        skip: true,
        reference: ReferenceFrame::Last,
        filter: InterpFilter::Regular,
        modes: [InterMode::New; 4],
        differences: [[1162, -1376]; 4],
    },
    Told::Inter {
        skip: true,
        reference: ReferenceFrame::Last,
        filter: InterpFilter::Regular,
        modes: [InterMode::New; 4],
        differences: [[-1966, 1226]; 4],
    },
    Told::Inter {
        skip: true,
        reference: ReferenceFrame::Altref,
        filter: InterpFilter::Regular,
        modes: [InterMode::New; 4],
        differences: [[1296, -1464]; 4],
    },
    Told::Inter {
        skip: true,
        reference: ReferenceFrame::Golden,
        filter: InterpFilter::Regular,
        modes: [InterMode::New; 4],
        differences: [[-1124, 2010]; 4],
    },
    Told::Inter {
        skip: true,
        reference: ReferenceFrame::Last,
        filter: InterpFilter::Regular,
        modes: [InterMode::New; 4],
        differences: [[1222, 1432]; 4],
    },
    Told::Inter {
        skip: true,
        reference: ReferenceFrame::Last,
        filter: InterpFilter::Regular,
        modes: [InterMode::New; 4],
        differences: [[1790, -1902]; 4],
    },
];

const SIXTH_PARTITIONS: [Partition; 2] = [WHOLE, HORIZONTAL];

const SIXTH_BLOCKS: [Told; 3] = [
    Told::Inter {
        skip: true,
        reference: ReferenceFrame::Altref,
        filter: InterpFilter::Regular,
        modes: [InterMode::New; 4],
        differences: [[2307, 4054]; 4],
    },
    Told::Inter {
        skip: true,
        reference: ReferenceFrame::Last,
        filter: InterpFilter::Regular,
        modes: [InterMode::New; 4],
        differences: [[-2088, -3576]; 4],
    },
    Told::Inter {
        skip: true,
        reference: ReferenceFrame::Last,
        filter: InterpFilter::Regular,
        modes: [InterMode::New; 4],
        differences: [[-3872, -4076]; 4],
    },
];

const SEVENTH_PARTITIONS: [Partition; 6] = [SPLIT, VERTICAL, VERTICAL, VERTICAL, HORIZONTAL, WHOLE];

const SEVENTH_BLOCKS: [Told; 9] = [
    Told::Inter {
        skip: true,
        reference: ReferenceFrame::Golden,
        filter: InterpFilter::Regular,
        modes: [InterMode::New; 4],
        differences: [[-4371, -6416]; 4],
    },
    Told::Inter {
        skip: true,
        reference: ReferenceFrame::Golden,
        filter: InterpFilter::Regular,
        modes: [InterMode::New; 4],
        differences: [[4906, -5312]; 4],
    },
    Told::Inter {
        skip: true,
        reference: ReferenceFrame::Altref,
        filter: InterpFilter::Regular,
        modes: [InterMode::New; 4],
        differences: [[8010, -4446]; 4],
    },
    Told::Inter {
        skip: true,
        reference: ReferenceFrame::Altref,
        filter: InterpFilter::Regular,
        modes: [InterMode::New; 4],
        differences: [[-7048, 7376]; 4],
    },
    Told::Inter {
        skip: true,
        reference: ReferenceFrame::Golden,
        filter: InterpFilter::Regular,
        modes: [InterMode::New; 4],
        differences: [[4270, -7982]; 4],
    },
    Told::Inter {
        skip: true,
        reference: ReferenceFrame::Altref,
        filter: InterpFilter::Regular,
        modes: [InterMode::New; 4],
        differences: [[6592, 6642]; 4],
    },
    Told::Inter {
        skip: true,
        reference: ReferenceFrame::Last,
        filter: InterpFilter::Regular,
        modes: [InterMode::New; 4],
        differences: [[-4428, 7224]; 4],
    },
    Told::Inter {
        skip: true,
        reference: ReferenceFrame::Altref,
        filter: InterpFilter::Regular,
        modes: [InterMode::New; 4],
        differences: [[4404, -7216]; 4],
    },
    Told::Inter {
        skip: true,
        reference: ReferenceFrame::Altref,
        filter: InterpFilter::Regular,
        modes: [InterMode::New; 4],
        differences: [[7448, -6558]; 4],
    },
];

pub const ROWS_OF_VECTORS: [Row; 1] = [Row {
    name: "vectors past all edges of a scaled reference, flat 200",
    frames: &[
        Frame {
            bytes: b"\x83I\x83B\0\x07\xf0\x0f\xf0\0\0\0\0\x04\0\x13\xbf\xff\xff\xc03\0\0\0\0\0\0\0\0\0\0\0\0\06\x7f\xff\
\xff\xf8\x06`\0\x01\x1f\xff\xff\xff\xe0\x19\x80",
            written: b"\x83I\x83B\0\x07\xf0\x0f\xf0\0\0\0\0\x08\0\0\x13\xbf\xff\xff\xc03\0\0\0\0\0\0\0\0\0\0\0\0\06\x7f\xff\
\xff\xf8\x06`\0\x01\x1f\xff\xff\xff\xe0\x19\x80\0\0\0\0\0\0\0\0\0\0\0\0\0\0\0\0\0\0\0\0\0\0\0\0\0\0\
\0\0\0\0\0\0\0\0\0\0\0\0\0\0\0\0\0\0\0\0\0\0\0\0\0\0\0\0\0\0\0\0\0\0\0\0\0\0\0\0\0\0\0\0\0\0\0\0\0\0\
\0\0\0\0\0\0\0\0\0\0\0\0\0\0\0\0\0\0\0\0\0\0\0\0\0\0\0\0\0\0\0\0\0\0\0\0\0\0\0\0\0\0\0\0\0\0\0",
            own_size: false,
            partitions: &FIRST_PARTITIONS,
            blocks: &FIRST_BLOCKS,
        },
        Frame {
            bytes: b"\x87\0\0\0\0~\0\xfe\x90\0\0\0\0\x08\0r\xcf\xf6\xe2n;\xff\xc5\xc3\x03\xaaL\x1e\xa98\xeb\xfe\xc8\xc1\
\x93t}\xb4\xc8\xb7\xf9\xb0Ng/\xe8\xb7 \xaa\xfd\0W]`uE\x18{U\x86X",
            written: b"\x87\0\0\0\0~\0\xfe\x90\0\0\0\0\x10\0\0r\xcf\xf6\xe2n;\xff\xc5\xc3\x03\xaaL\x1e\xa98\xeb\xfe\xc8\xc1\
\x93t}\xb4\xc8\xb7\xf9\xb0Ng/\xe8\xb7 \xaa\xfd\0W]`uE\x18{U\x86W@",
            own_size: true,
            partitions: &SECOND_PARTITIONS,
            blocks: &SECOND_BLOCKS,
        },
        Frame {
            bytes: b"\x87\0\0\0\0~\0\xfe\x90\0\0\0\0\x08\0i\x9f\xa6\xade\xc3\x87\xfc\xdf\xc1\xbe",
            written: b"\x87\0\0\0\0~\0\xfe\x90\0\0\0\0\x10\0\0i\x9f\xa6\xade\xc3\x87\xfc\xdf\xc1\xbd\xa0",
            own_size: true,
            partitions: &THIRD_PARTITIONS,
            blocks: &THIRD_BLOCKS,
        },
        Frame {
            bytes: b"\x87\0\0\0\0~\0\xfe\x90\0\0\0\0\x08\0\x7f\xfb/\xfc\xd0We\x93lB\xf3\x0cs5\xb9X]_\x7f\xe7\x0b\xd6\xd0s\
\xb6_\xb7@\xab\xfd7\xb9\x9a\x9f\xfa>\xfe\xa1\x8ef \xe77\xcd\xbf\xe9\xb9[,J\xaa\xfc\xf4\x8fe?^\xb2\
\xffM\xf8\xdb\xe4\x8d\xdf\xc1\x8d\x0b\x1c\xc3\\\x9b\x0f\xde\x12\xf2\x8d\x1d\xb8?\xcb\x8f\x9e\xd7C\
\xdf\n\x7f\xe3\x17\xda\xd3\xfdC\xa6q\xff\x0b\xc8{\xd5\xf9\xeb`\xb2\xf3aH\x7f;?uUm\xf3\x848\x16\xa6\
\xf0\x1b\xe7\xdc\x84+t\xcf\x96\xd2\xd3c\xf5\xfc\xf1a~\xbc\xdbN\x0f\xff\xf8\x0f\xfa\x9a__\x17\xd8\x02\
&\xeb\xfd\xd07\xfc\xd8m\x1b\x97\xf8>$}\xf7\xcd\xef:\x99\x84\xdb&\xa3\xa2\xaf\xfa\xa7\xf0o\x1c\xbb\
\x92\xa7R\xef\xab\x14\xe3y\xdc{\xad@_\xa7\x07\xd5\xc1\x13t\xe0\xb4\x88?3\xc6\xe6\x90\xdd=\x9e\xe9\
\xd2v\xfe\xa2\xcd\xf6\xbf~\xf9\x8f\x06\xbd\xc5\x16\xd4\xd2\xb8\xf9\x81\xbc\x92\xbeV\xfe\xf6\x08;\x81\
\xdf\xb6\xec?\x0e\xff{\xd2\xd0\x1e\x11\xf3\x95M1\xc4q\x05\xef\xf0\x03\x1c\x94\xa7\xeb/\xcc&\xa5\xbd\
\xd1\xea\xfc1?\x02c\xb6",
            written: b"\x87\0\0\0\0~\0\xfe\x90\0\0\0\0\x10\0\0\x7f\xfb/\xfc\xd0We\x93lB\xf3\x0cs5\xb9X]_\x7f\xe7\x0b\xd6\
\xd0s\xb6_\xb7@\xab\xfd7\xb9\x9a\x9f\xfa>\xfe\xa1\x8ef \xe77\xcd\xbf\xe9\xb9[,J\xaa\xfc\xf4\x8fe?^\
\xb2\xffM\xf8\xdb\xe4\x8d\xdf\xc1\x8d\x0b\x1c\xc3\\\x9b\x0f\xde\x12\xf2\x8d\x1d\xb8?\xcb\x8f\x9e\xd7\
C\xdf\n\x7f\xe3\x17\xda\xd3\xfdC\xa6q\xff\x0b\xc8{\xd5\xf9\xeb`\xb2\xf3aH\x7f;?uUm\xf3\x848\x16\xa6\
\xf0\x1b\xe7\xdc\x84+t\xcf\x96\xd2\xd3c\xf5\xfc\xf1a~\xbc\xdbN\x0f\xff\xf8\x0f\xfa\x9a__\x17\xd8\x02\
&\xeb\xfd\xd07\xfc\xd8m\x1b\x97\xf8>$}\xf7\xcd\xef:\x99\x84\xdb&\xa3\xa2\xaf\xfa\xa7\xf0o\x1c\xbb\
\x92\xa7R\xef\xab\x14\xe3y\xdc{\xad@_\xa7\x07\xd5\xc1\x13t\xe0\xb4\x88?3\xc6\xe6\x90\xdd=\x9e\xe9\
\xd2v\xfe\xa2\xcd\xf6\xbf~\xf9\x8f\x06\xbd\xc5\x16\xd4\xd2\xb8\xf9\x81\xbc\x92\xbeV\xfe\xf6\x08;\x81\
\xdf\xb6\xec?\x0e\xff{\xd2\xd0\x1e\x11\xf3\x95M1\xc4q\x05\xef\xf0\x03\x1c\x94\xa7\xeb/\xcc&\xa5\xbd\
\xd1\xea\xfc1?\x02c\xb5D",
            own_size: true,
            partitions: &FOURTH_PARTITIONS,
            blocks: &FOURTH_BLOCKS,
        },
        Frame {
            bytes: b"\x87\0\0\0\0~\0\xfe\x90\0\0\0\0\x08\0r\xcc\xdfeY|W\xf8?\xffU\x17\xd7\xae\xda\xff\x96{\xc0\x0f\n\xf9k\
\x7f\x1fw\xc7\xf0\xbe\xe0\xf3\xa5\xab\xf3\xfe=\x9fk\xc7\xf3@\x9e\x8cN::r\xb3\xbb\xc2'\xe0\x1cG\xd0\
\xaf",
            written: b"\x87\0\0\0\0~\0\xfe\x90\0\0\0\0\x10\0\0r\xcc\xdfeY|W\xf8?\xffU\x17\xd7\xae\xda\xff\x96{\xc0\x0f\n\
\xf9k\x7f\x1fw\xc7\xf0\xbe\xe0\xf3\xa5\xab\xf3\xfe=\x9fk\xc7\xf3@\x9e\x8cN::r\xb3\xbb\xc2'\xe0\x1cG\
\xd0\xae`",
            own_size: true,
            partitions: &FIFTH_PARTITIONS,
            blocks: &FIFTH_BLOCKS,
        },
        Frame {
            bytes: b"\x87\0\0\0\0~\0\xfe\x90\0\0\0\0\x08\0n\xb7\xf9M\x17\xde\xf7\xed\x80\x1f\xfeI/\xd1\xbd{\x7f\xac\xa7\
\xff\xf2\x9f\xf1",
            written: b"\x87\0\0\0\0~\0\xfe\x90\0\0\0\0\x10\0\0n\xb7\xf9M\x17\xde\xf7\xed\x80\x1f\xfeI/\xd1\xbd{\x7f\xac\xa7\
\xff\xf2\x9f\xf1\0",
            own_size: true,
            partitions: &SIXTH_PARTITIONS,
            blocks: &SIXTH_BLOCKS,
        },
        Frame {
            bytes: b"\x87\0\0\0\0~\0\xfe\x90\0\0\0\0\x08\0}\x97?\xfa\xc4\x9f\xea\x0fh?\xbc`\xff\xc7\xb3\xbf\xa0\xfe=\xfd\
\xef\xfd=G\xffh\xbb\xa3\xf7\x94p\x9c\x7fHW\xfbB\xfd\x8be\xff]-~[\x84X\x7f\xf7\x92\x1f\x9d\xbf\xe9\
\x7f[\xbf\xfc\x10\xe1\xbb\x8f\xda\x05\xff\xfd\xe8\xed",
            written: b"\x87\0\0\0\0~\0\xfe\x90\0\0\0\0\x10\0\0}\x97?\xfa\xc4\x9f\xea\x0fh?\xbc`\xff\xc7\xb3\xbf\xa0\xfe=\
\xfd\xef\xfd=G\xffh\xbb\xa3\xf7\x94p\x9c\x7fHW\xfbB\xfd\x8be\xff]-~[\x84X\x7f\xf7\x92\x1f\x9d\xbf\
\xe9\x7f[\xbf\xfc\x10\xe1\xbb\x8f\xda\x05\xff\xfd\xe8\xed\0",
            own_size: true,
            partitions: &SEVENTH_PARTITIONS,
            blocks: &SEVENTH_BLOCKS,
        },
    ],
}];

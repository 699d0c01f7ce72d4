//! Worked tags, their faults in order, and headers written and read back.

ghost use Rattle.sal_header.specs.declared.header.Kept.{Kept};
ghost use Rattle.sal_header.specs.Written.{IsWritable};

use crate::fields::optional_vector;
use crate::{
    Header, Kept, Parts, Tag, first_part, partitions, read_header, read_tag, write_header,
};
use sal_base::{Bytes, Fault};
use sal_bool::{Decoder, Encoder};
use sal_probs::{Probs, Updates};
use std::alloc::Global;

const KEY: Tag = Tag {
    key: true,
    shown: true,
    size: 8,
    width: 16,
    height: 16,
};

#[test]
fn starts_of_key_frames_and_their_first_faults(rt: HostRuntime) {
    let cases: [(&[u8], Result<Tag, Fault>); 9] = [
        (
            &[0x10, 0x01, 0x00, 0x9d, 0x01, 0x2a, 0x10, 0x00, 0x10, 0x00],
            Ok(KEY),
        ),
        (&[0x10, 0x01, 0x00], Err(Fault::Short)),
        (
            &[0x10, 0x00, 0x00, 0x9d, 0x01, 0x2b, 0x00, 0x00, 0x10],
            Err(Fault::Short),
        ),
        (
            &[0x10, 0x00, 0x00, 0x9d, 0x01, 0x2b, 0x00, 0x00, 0x10, 0x00],
            Err(Fault::BadStart),
        ),
        (
            &[0x10, 0x00, 0x00, 0x9d, 0x01, 0x2a, 0x00, 0x00, 0xff, 0x3f],
            Err(Fault::ZeroSize),
        ),
        (
            &[0x10, 0x00, 0x00, 0x9d, 0x01, 0x2a, 0x10, 0x00, 0x00, 0xc0],
            Err(Fault::ZeroSize),
        ),
        (
            &[0x10, 0x00, 0x00, 0x9d, 0x01, 0x2a, 0x01, 0x05, 0x10, 0x00],
            Err(Fault::TooLarge(1281, 16)),
        ),
        (
            &[0x10, 0x00, 0x00, 0x9d, 0x01, 0x2a, 0x10, 0x00, 0xd1, 0x02],
            Err(Fault::TooLarge(16, 721)),
        ),
        // The greatest sides, each with its scale.
        (
            &[0x00, 0x00, 0x00, 0x9d, 0x01, 0x2a, 0x00, 0x45, 0xd0, 0xc2],
            Ok(Tag {
                key: true,
                shown: false,
                size: 0,
                width: 1280,
                height: 720,
            }),
        ),
    ];
    for (bytes, tag) in cases {
        assert_eq!(rt; read_tag(bytes), tag, "{bytes:?}");
    }
}

#[test]
fn tags_of_inter_frames_and_their_first_faults(rt: HostRuntime) {
    let cases: [(&[u8], Result<Tag, Fault>); 7] = [
        (&[], Err(Fault::Short)),
        (&[0x10, 0x00], Err(Fault::Short)),
        (&[0x12, 0x00, 0x00], Err(Fault::BadVersion(1))),
        (&[0x1e, 0x00, 0x00], Err(Fault::BadVersion(7))),
        // An inter frame has no sides.
        (
            &[0x11, 0x00, 0x00],
            Ok(Tag {
                key: false,
                shown: true,
                size: 0,
                width: 0,
                height: 0,
            }),
        ),
        // The size's lowest bits stand in the first byte, its highest in the last.
        (
            &[0x21, 0x00, 0x80],
            Ok(Tag {
                key: false,
                shown: false,
                size: 262_145,
                width: 0,
                height: 0,
            }),
        ),
        (
            &[0xf1, 0xff, 0xff],
            Ok(Tag {
                key: false,
                shown: true,
                size: 524_287,
                width: 0,
                height: 0,
            }),
        ),
    ];
    for (bytes, tag) in cases {
        assert_eq!(rt; read_tag(bytes), tag, "{bytes:?}");
    }
}

#[test]
fn a_first_partition_up_to_the_end(rt: HostRuntime) {
    let inter = |size| Tag {
        key: false,
        shown: true,
        size,
        width: 0,
        height: 0,
    };
    let bytes = [1u8, 2, 3, 4, 5, 6, 7, 8, 9, 10, 11, 12];
    let rest: &[u8] = &[4, 5, 6];
    assert_eq!(rt; first_part(&bytes, &inter(3)), Ok(rest));
    assert_eq!(rt;
        first_part(&bytes, &inter(10)),
        Err(Fault::FirstPart(10, 9))
    );
    assert_eq!(rt; first_part(&bytes, &KEY), Err(Fault::FirstPart(8, 2)));
    assert_eq!(rt; first_part(&bytes[..10], &KEY), Err(Fault::FirstPart(8, 0)));
    assert_eq!(rt; first_part(&[], &KEY), Err(Fault::FirstPart(8, 0)));
}

/// The first entries, and zeros.
fn parts(count: u8, entries: &[(usize, usize)]) -> Parts {
    let mut at = [(0, 0); 8];
    for (place, entry) in at.iter_mut().zip(entries) {
        *place = *entry;
    }
    Parts { count, at }
}

#[test]
fn partitions_and_the_first_that_passes_the_end(rt: HostRuntime) {
    let tag = Tag {
        key: false,
        shown: true,
        size: 1,
        width: 0,
        height: 0,
    };
    let cases: [(&[u8], u8, Result<Parts, Fault>); 9] = [
        (&[0, 0, 0, 9], 0, Ok(parts(1, &[(4, 0)]))),
        (&[0, 0, 0, 9, 1, 2], 0, Ok(parts(1, &[(4, 2)]))),
        // Without the sizes it is the first one.
        (&[0, 0, 0, 9, 1, 0], 1, Err(Fault::Partition(0))),
        (&[0, 0, 0, 9, 1, 0, 0], 1, Err(Fault::Partition(0))),
        (
            &[0, 0, 0, 9, 1, 0, 0, 7],
            1,
            Ok(parts(2, &[(7, 1), (8, 0)])),
        ),
        // The lowest byte of a size comes first.
        (&[0, 0, 0, 9, 0, 1, 0, 7, 7], 1, Err(Fault::Partition(0))),
        (
            &[0, 0, 0, 9, 1, 0, 0, 0, 0, 0, 2, 0, 0, 5, 6, 7, 8],
            2,
            Ok(parts(4, &[(13, 1), (14, 0), (14, 2), (16, 1)])),
        ),
        (
            &[0, 0, 0, 9, 1, 0, 0, 0, 0, 0, 2, 0, 0, 5, 6],
            2,
            Err(Fault::Partition(2)),
        ),
        (
            &[0, 0, 0, 9, 1, 0, 0, 3, 0, 0, 2, 0, 0, 5, 6],
            2,
            Err(Fault::Partition(1)),
        ),
    ];
    for (bytes, log2, expected) in cases {
        assert_eq!(rt; partitions(bytes, &tag, log2), expected, "{bytes:?}");
    }
}

/// What a state keeps, nothing of it being a default.
fn kept(alloc: Global) -> Option<Kept> {
    let probs = Probs::initial(alloc).ok()?;
    Some(Kept {
        absolute: true,
        quantisers: [1, -2, 3, -4],
        levels: [5, 6, -7, -8],
        ref_deltas: [9, -10, 11, 12],
        mode_deltas: [-13, 14, 15, -16],
        bias_golden: true,
        bias_alt: true,
        map: Bytes::new(alloc),
        probs,
    })
}

/// Flags, numbers, signed numbers and lists of a header.
type Fields = ([bool; 18], [u8; 13], [i8; 5], [[i8; 4]; 4]);

fn fields(h: &Header) -> Fields {
    let [first, second, third] = h.map;
    let lists = [h.quantisers, h.levels, h.ref_deltas, h.mode_deltas];
    (
        [
            h.key,
            h.shown,
            h.colour,
            h.clamping,
            h.segmentation,
            h.update_map,
            h.update_data,
            h.absolute,
            h.simple,
            h.deltas,
            h.update_deltas,
            h.refresh_entropy,
            h.refresh_golden,
            h.refresh_alt,
            h.bias_golden,
            h.bias_alt,
            h.refresh_last,
            h.skips,
        ],
        [
            first,
            second,
            third,
            h.level,
            h.sharpness,
            h.log2,
            h.y_ac,
            h.copy_golden,
            h.copy_alt,
            h.prob_skip,
            h.prob_intra,
            h.prob_last,
            h.prob_golden,
        ],
        [h.y_dc, h.y2_dc, h.y2_ac, h.uv_dc, h.uv_ac],
        lists,
    )
}

/// Whether each update is this one.
fn are_all(updates: &Updates, coefficient: Option<u8>, vector: Option<u8>) -> bool {
    updates.coefficients.iter().all(|u| *u == coefficient)
        && updates.vectors.iter().all(|u| *u == vector)
}

#[test]
fn an_empty_partition_says_zeros(rt: HostRuntime) {
    let Some(kept) = kept(rt.alloc()) else {
        panic!(rt; "no memory");
    };
    let header = read_header(&mut Decoder::new(&[]), &KEY, &kept);
    let mut flags = [false; 18];
    flags[0] = true;
    flags[1] = true;
    assert_eq!(rt; fields(&header), (flags, [0; 13], [0; 5], [[0; 4]; 4]));
    assert!(rt; are_all(&header.updates, None, None));
    assert_eq!(rt; (header.updates.y, header.updates.chroma), (None, None));
    // An inter frame's has the data and the deltas that the state keeps.
    let tag = Tag {
        key: false,
        shown: false,
        size: 0,
        width: 0,
        height: 0,
    };
    let header = read_header(&mut Decoder::new(&[]), &tag, &kept);
    let mut flags = [false; 18];
    flags[7] = true;
    let lists = [
        [1, -2, 3, -4],
        [5, 6, -7, -8],
        [9, -10, 11, 12],
        [-13, 14, 15, -16],
    ];
    assert_eq!(rt; fields(&header), (flags, [0; 13], [0; 5], lists));
    assert!(rt; are_all(&header.updates, None, None));
}

/// The vector probability that seven equal bits say.
fn vector(alloc: Global, bit: bool) -> Option<u8> {
    let mut encoder = Encoder::new(alloc);
    encoder.put(true, 237).ok()?;
    for _ in 0..7u32 {
        encoder.put(bit, 128).ok()?;
    }
    let bytes = encoder.finish().ok()?;
    optional_vector(&mut Decoder::new(bytes.as_slice()), 237)
}

#[test]
fn the_least_and_the_greatest_vector_probability(rt: HostRuntime) {
    assert_eq!(rt; vector(rt.alloc(), false), Some(1));
    assert_eq!(rt; vector(rt.alloc(), true), Some(254));
}

/// An inter frame's header with every optional field.
fn full() -> Header
    ensures { (kept : Kept) × IsWritable kept result }
{
    Header {
        key: false,
        shown: true,
        colour: false,
        clamping: false,
        segmentation: true,
        update_map: true,
        update_data: true,
        absolute: true,
        simple: true,
        deltas: true,
        update_deltas: true,
        refresh_entropy: true,
        refresh_golden: false,
        refresh_alt: false,
        bias_golden: true,
        bias_alt: false,
        refresh_last: true,
        skips: true,
        quantisers: [-127, 0, 1, 127],
        levels: [63, -63, 0, -1],
        ref_deltas: [0, 1, -1, 63],
        mode_deltas: [-63, 2, 0, 7],
        map: [0, 255, 254],
        level: 63,
        sharpness: 7,
        log2: 3,
        y_ac: 127,
        copy_golden: 2,
        copy_alt: 1,
        prob_skip: 255,
        prob_intra: 1,
        prob_last: 0,
        prob_golden: 200,
        y_dc: -15,
        y2_dc: 15,
        y2_ac: 0,
        uv_dc: 1,
        uv_ac: -1,
        updates: Updates {
            coefficients: [Some(200); 1056],
            vectors: [Some(254); 38],
            y: Some([1, 2, 3, 255]),
            chroma: Some([0, 128, 255]),
        },
    }
}

/// A key frame's header with every field that it has and every kind of update, none of them a default.
fn full_key() -> Header
    ensures { (kept : Kept) × IsWritable kept result }
{
    let mut coefficients = [Some(200); 1056];
    coefficients[0] = Some(0);
    coefficients[527] = None;
    coefficients[1055] = Some(255);
    Header {
        key: true,
        shown: false,
        colour: true,
        clamping: true,
        segmentation: true,
        update_map: true,
        update_data: true,
        absolute: true,
        simple: true,
        deltas: true,
        update_deltas: true,
        refresh_entropy: true,
        refresh_golden: false,
        refresh_alt: false,
        bias_golden: false,
        bias_alt: false,
        refresh_last: false,
        skips: true,
        quantisers: [127, -127, 0, 1],
        levels: [-63, 63, 1, 0],
        ref_deltas: [63, -1, 1, -63],
        mode_deltas: [-7, 63, -63, 2],
        map: [254, 0, 255],
        level: 62,
        sharpness: 6,
        log2: 3,
        y_ac: 126,
        copy_golden: 0,
        copy_alt: 0,
        prob_skip: 1,
        prob_intra: 0,
        prob_last: 0,
        prob_golden: 0,
        y_dc: 15,
        y2_dc: -15,
        y2_ac: 1,
        uv_dc: -1,
        uv_ac: 8,
        updates: Updates {
            coefficients,
            vectors: [None; 38],
            y: None,
            chroma: None,
        },
    }
}

/// The header once more, read from the bytes that it is written as.
fn again(alloc: Global, header: &Header, kept: &Kept) -> Option<Header>
    requires { (kept : Kept) × IsWritable kept header.now }
{
    let mut encoder = Encoder::new(alloc);
    write_header(&mut encoder, header).ok()?;
    let bytes = encoder.finish().ok()?;
    let tag = Tag {
        key: header.key,
        shown: header.shown,
        size: 0,
        width: 0,
        height: 0,
    };
    Some(read_header(&mut Decoder::new(bytes.as_slice()), &tag, kept))
}

#[test]
fn a_full_key_header_is_read_back(rt: HostRuntime) {
    let alloc = rt.alloc();
    let Some(kept) = kept(alloc) else {
        panic!(rt; "no memory");
    };
    let header = full_key();
    let Some(read) = again(alloc, &header, &kept) else {
        panic!(rt; "no header");
    };
    assert_eq!(rt; fields(&read), fields(&header));
    assert_eq!(rt;
        read.updates.coefficients.as_slice(),
        header.updates.coefficients.as_slice()
    );
    assert!(rt; read.updates.vectors.iter().all(|u| u.is_none()));
    assert_eq!(rt; (read.updates.y, read.updates.chroma), (None, None));
}

#[test]
fn a_full_header_is_read_back(rt: HostRuntime) {
    let alloc = rt.alloc();
    let Some(kept) = kept(alloc) else {
        panic!(rt; "no memory");
    };
    let header = full();
    let Some(read) = again(alloc, &header, &kept) else {
        panic!(rt; "no header");
    };
    assert_eq!(rt; fields(&read), fields(&header));
    assert!(rt; are_all(&read.updates, Some(200), Some(254)));
    assert_eq!(rt;
        (read.updates.y, read.updates.chroma),
        (Some([1, 2, 3, 255]), Some([0, 128, 255]))
    );
}

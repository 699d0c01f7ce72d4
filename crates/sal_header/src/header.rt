//! A frame's header, and what a state keeps for the next one.

use sal_base::Bytes;
use sal_probs::{Probs, Updates};

/// What a state keeps for the headers and macroblocks of later frames.
#[derive(Drop)]
pub struct Kept {
    /// Whether quantisers and levels of segments stand for those of the frame (RFC 6386, section 9.3).
    pub absolute: bool,
    /// The quantisers of the segments.
    pub quantisers: [i8; 4],
    /// The filter levels of the segments.
    pub levels: [i8; 4],
    /// The filter's deltas for intra, last, golden and alt (section 9.4).
    pub ref_deltas: [i8; 4],
    /// The filter's deltas for B, zero, other and split vectors (section 9.4).
    pub mode_deltas: [i8; 4],
    /// The sign bias of golden: whether vectors on it are negated beside those on last (section 9.7).
    pub bias_golden: bool,
    /// The sign bias of alt, alike.
    pub bias_alt: bool,
    /// The segment map: the segment of each macroblock, 0 to 3, in raster order (section 9.3).
    pub map: Bytes,
    /// The probabilities in use (sections 9.10, 13.4 and 17.2).
    pub probs: Probs,
}

/// The fields of a frame's header (RFC 6386, sections 9.2 to 9.11). A field that isn't written has its kept value where a
/// state keeps it, else 0 or false.
#[derive(Drop)]
pub struct Header {
    /// Whether it is a key frame; this one and `shown` are the tag's.
    pub key: bool,
    /// Whether the picture is to be shown (section 9.1).
    pub shown: bool,
    /// The colour space's bit, in key frames only.
    pub colour: bool,
    /// Whether samples need no clamping, in key frames only; it changes nothing here.
    pub clamping: bool,
    /// Whether there are segments (section 9.3).
    pub segmentation: bool,
    /// Whether each macroblock says its segment (section 9.3).
    pub update_map: bool,
    /// Whether the header says quantisers and levels of segments (section 9.3).
    pub update_data: bool,
    /// Whether those stand for the frame's own, else they are added to them (section 9.3).
    pub absolute: bool,
    /// Whether the simple filter is used (section 9.4).
    pub simple: bool,
    /// Whether the filter's deltas are in use (section 9.4).
    pub deltas: bool,
    /// Whether the header says the filter's deltas (section 9.4).
    pub update_deltas: bool,
    /// Whether the probabilities serve the next frames too (section 9.11).
    pub refresh_entropy: bool,
    /// Whether the picture becomes golden, in inter frames (section 9.7).
    pub refresh_golden: bool,
    /// Whether the picture becomes alt, in inter frames (section 9.7).
    pub refresh_alt: bool,
    /// The sign bias of golden: whether vectors on it are negated beside those on last (section 9.7).
    pub bias_golden: bool,
    /// The sign bias of alt, alike (section 9.7).
    pub bias_alt: bool,
    /// Whether the picture becomes last, in inter frames.
    pub refresh_last: bool,
    /// Whether macroblocks say that they have no coefficients (mb_no_coeff_skip).
    pub skips: bool,
    /// The quantisers of the segments, from -127 to 127.
    pub quantisers: [i8; 4],
    /// The filter levels of the segments, from -63 to 63.
    pub levels: [i8; 4],
    /// The filter's deltas by reference, from -63 to 63.
    pub ref_deltas: [i8; 4],
    /// The filter's deltas by mode, from -63 to 63.
    pub mode_deltas: [i8; 4],
    /// The probabilities of the tree that macroblocks say their segments by, 255 where unflagged (section 9.3); the map itself is
    /// `Kept::map`.
    pub map: [u8; 3],
    /// The filter's level, at most 63 (section 9.4).
    pub level: u8,
    /// The filter's sharpness, at most 7 (section 9.4).
    pub sharpness: u8,
    /// The logarithm of the count of token partitions, at most 3 (section 9.5).
    pub log2: u8,
    /// The quantiser's index, at most 127 (section 9.6).
    pub y_ac: u8,
    /// What is copied to golden: 1 last, 2 alt, else nothing (section 9.7).
    pub copy_golden: u8,
    /// What is copied to alt: 1 last, 2 golden, else nothing (section 9.7).
    pub copy_alt: u8,
    /// The probability, of 256, that a macroblock has coefficients, 0 where none says so (section 9.11).
    pub prob_skip: u8,
    /// The probability, of 256, that a macroblock is intra (section 9.10).
    pub prob_intra: u8,
    /// The probability, of 256, that an inter macroblock's reference is last (section 9.10).
    pub prob_last: u8,
    /// The probability, of 256, that it is golden, where it isn't last (section 9.10).
    pub prob_golden: u8,
    /// The index's delta for the first coefficient of luma blocks, from -15 to 15 (section 9.6).
    pub y_dc: i8,
    /// The delta for the first coefficient of second-order blocks, from -15 to 15.
    pub y2_dc: i8,
    /// The delta for the other coefficients of second-order blocks, from -15 to 15.
    pub y2_ac: i8,
    /// The delta for the first coefficient of chroma blocks, from -15 to 15.
    pub uv_dc: i8,
    /// The delta for the other coefficients of chroma blocks, from -15 to 15.
    pub uv_ac: i8,
    /// The probabilities that the header replaces (sections 9.10, 13.4 and 17.2).
    pub updates: Updates,
}

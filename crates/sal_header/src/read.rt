//! The parts of a header, each read from its bits in the order of RFC 6386, section 19.2.

ghost use Rattle.std.specs.Prelude.{◌≡◌, ◌≤◌, ℕ, List, not, replicate};
ghost use Rattle.sal_bool.specs.Bits.{Interval};
ghost use Rattle.sal_bool.specs.Reading.{StandsFor};
ghost use Rattle.sal_bool.specs.Syntax.{run, read, when};
ghost use Rattle.sal_header.specs.Headers.{data_before, deltas_before, segment_data, segment_map, segments, filter_deltas, filtering, quantisers, key_refreshing, inter_refreshing, refreshing, inter_modes, no_inter_modes, modes, header_made, header_of, IsInRange};

use crate::fields::{
    coefficient_updates, flag_when, index_delta, optional_four, optional_three, small, small_when,
    three_flagged, update_four, vector_updates,
};
use crate::header::{Header, Kept};
use crate::parts::{
    Deltas, Filtering, InterModes, Modes, Quantisers, Refreshing, SegmentData, Segments,
};
use crate::tag::Tag;
use sal_bool::Decoder;
use sal_probs::Updates;

/// The header of a frame, from the first bit of its first partition on. It takes no memory.
pub fn read_header(decoder: &mut Decoder<'_>, tag: &Tag, kept: &Kept) -> Header
    ensures reads { run (header_of tag.now.key tag.now.shown kept.now) decoder.old ≡ (result, decoder.new) }
    ensures exact { (bytes : List ℕ) (i : Interval) → StandsFor bytes i decoder.old → (result ≡ (read bytes i (header_of tag.now.key tag.now.shown kept.now)).0) × StandsFor bytes (read bytes i (header_of tag.now.key tag.now.shown kept.now)).1 decoder.new }
    ensures range { IsInRange result }
{
    let colour = flag_when(decoder, tag.key);
    let clamping = flag_when(decoder, tag.key);
    let segments = read_segments(decoder, &data_before(tag.key, kept));
    let filtering = read_filtering(decoder, &deltas_before(tag.key, kept));
    let log2 = small(decoder, 2);
    let quantisers = read_quantisers(decoder);
    let refreshing = read_refreshing(decoder, tag.key);
    let mut coefficients = [None; 1056];
    coefficient_updates(decoder, &mut coefficients);
    let modes = read_modes(decoder, tag.key);
    header_made(
        tag,
        colour,
        clamping,
        &segments,
        &filtering,
        log2,
        &quantisers,
        &refreshing,
        coefficients,
        &modes,
    )
}

// The segments' data that a frame begins with: none in a key frame.
fn data_before(key: bool, kept: &Kept) -> SegmentData
    ensures { result ≡ data_before key kept.now }
{
    if key {
        return SegmentData {
            absolute: false,
            quantisers: [0; 4],
            levels: [0; 4],
        };
    }
    SegmentData {
        absolute: kept.absolute,
        quantisers: kept.quantisers,
        levels: kept.levels,
    }
}

// The filter's deltas that a frame begins with: none in a key frame.
fn deltas_before(key: bool, kept: &Kept) -> Deltas
    ensures { result ≡ deltas_before key kept.now }
{
    if key {
        return Deltas {
            references: [0; 4],
            modes: [0; 4],
        };
    }
    Deltas {
        references: kept.ref_deltas,
        modes: kept.mode_deltas,
    }
}

// Segments (9.3).
fn read_segments(decoder: &mut Decoder<'_>, before: &SegmentData) -> Segments
    ensures reads { run (segments before.now) decoder.old ≡ (result, decoder.new) }
{
    let on = decoder.bit(128);
    let update_map = flag_when(decoder, on);
    let update_data = flag_when(decoder, on);
    let data = segment_data_when(decoder, update_data, before);
    let map = segment_map_when(decoder, update_map);
    Segments {
        on,
        update_map,
        update_data,
        data,
        map,
    }
}

fn segment_data_when(decoder: &mut Decoder<'_>, there: bool, before: &SegmentData) -> SegmentData
    ensures reads { run (when there segment_data before.now) decoder.old ≡ (result, decoder.new) }
{
    if there {
        read_segment_data(decoder)
    } else {
        *before
    }
}

// Quantisers and levels of the segments; those unflagged are 0.
fn read_segment_data(decoder: &mut Decoder<'_>) -> SegmentData
    ensures reads { run segment_data decoder.old ≡ (result, decoder.new) }
{
    let absolute = decoder.bit(128);
    let mut quantisers = [0; 4];
    update_four(decoder, 7, &mut quantisers);
    let mut levels = [0; 4];
    update_four(decoder, 6, &mut levels);
    SegmentData {
        absolute,
        quantisers,
        levels,
    }
}

fn segment_map_when(decoder: &mut Decoder<'_>, there: bool) -> [u8; 3]
    ensures reads { run (when there segment_map (replicate 3 0)) decoder.old ≡ (result, decoder.new) }
{
    if there {
        three_flagged(decoder)
    } else {
        [0; 3]
    }
}

// The loop filter (9.4).
fn read_filtering(decoder: &mut Decoder<'_>, before: &Deltas) -> Filtering
    ensures reads { run (filtering before.now) decoder.old ≡ (result, decoder.new) }
    ensures level { result.level ≤ 63 }
    ensures sharpness { result.sharpness ≤ 7 }
{
    let simple = decoder.bit(128);
    let level = small(decoder, 6);
    let sharpness = small(decoder, 3);
    let on = decoder.bit(128);
    let update = flag_when(decoder, on);
    let deltas = filter_deltas_when(decoder, update, before);
    Filtering {
        simple,
        level,
        sharpness,
        on,
        update,
        deltas,
    }
}

fn filter_deltas_when(decoder: &mut Decoder<'_>, there: bool, before: &Deltas) -> Deltas
    ensures reads { run (when there (filter_deltas before.now) before.now) decoder.old ≡ (result, decoder.new) }
{
    if there {
        read_filter_deltas(decoder, before)
    } else {
        *before
    }
}

// The filter's deltas; those unflagged stay as they were.
fn read_filter_deltas(decoder: &mut Decoder<'_>, before: &Deltas) -> Deltas
    ensures reads { run (filter_deltas before.now) decoder.old ≡ (result, decoder.new) }
{
    let mut references = before.references;
    update_four(decoder, 6, &mut references);
    let mut modes = before.modes;
    update_four(decoder, 6, &mut modes);
    Deltas { references, modes }
}

// The quantiser's index and its deltas (9.6).
fn read_quantisers(decoder: &mut Decoder<'_>) -> Quantisers
    ensures reads { run quantisers decoder.old ≡ (result, decoder.new) }
    ensures y_ac { result.y_ac ≤ 127 }
{
    let y_ac = small(decoder, 7);
    let y_dc = index_delta(decoder);
    let y2_dc = index_delta(decoder);
    let y2_ac = index_delta(decoder);
    let uv_dc = index_delta(decoder);
    let uv_ac = index_delta(decoder);
    Quantisers {
        y_ac,
        y_dc,
        y2_dc,
        y2_ac,
        uv_dc,
        uv_ac,
    }
}

// Which references and probabilities the frame leaves (9.7, 9.10 and 9.11).
fn read_refreshing(decoder: &mut Decoder<'_>, key: bool) -> Refreshing
    ensures reads { run (refreshing key) decoder.old ≡ (result, decoder.new) }
{
    if key {
        key_refreshing(decoder)
    } else {
        inter_refreshing(decoder)
    }
}

fn key_refreshing(decoder: &mut Decoder<'_>) -> Refreshing
    ensures reads { run key_refreshing decoder.old ≡ (result, decoder.new) }
{
    let entropy = decoder.bit(128);
    Refreshing {
        golden: false,
        alt: false,
        copy_golden: 0,
        copy_alt: 0,
        bias_golden: false,
        bias_alt: false,
        entropy,
        last: false,
    }
}

fn inter_refreshing(decoder: &mut Decoder<'_>) -> Refreshing
    ensures reads { run inter_refreshing decoder.old ≡ (result, decoder.new) }
{
    let golden = decoder.bit(128);
    let alt = decoder.bit(128);
    let copy_golden = small_when(decoder, !golden, 2);
    let copy_alt = small_when(decoder, !alt, 2);
    let bias_golden = decoder.bit(128);
    let bias_alt = decoder.bit(128);
    let entropy = decoder.bit(128);
    let last = decoder.bit(128);
    Refreshing {
        golden,
        alt,
        copy_golden,
        copy_alt,
        bias_golden,
        bias_alt,
        entropy,
        last,
    }
}

// The probabilities of macroblocks' modes (9.10 and 9.11).
fn read_modes(decoder: &mut Decoder<'_>, key: bool) -> Modes
    ensures reads { run (modes key) decoder.old ≡ (result, decoder.new) }
{
    let skips = decoder.bit(128);
    let skip = small_when(decoder, skips, 8);
    let inter = inter_modes_when(decoder, !key);
    Modes { skips, skip, inter }
}

#[tactic(auto, unfolding(crate::specs::Headers::no_inter_modes))]
fn inter_modes_when(decoder: &mut Decoder<'_>, there: bool) -> InterModes
    ensures reads { run (when there inter_modes no_inter_modes) decoder.old ≡ (result, decoder.new) }
{
    if there {
        read_inter_modes(decoder)
    } else {
        no_inter_modes()
    }
}

#[tactic(auto, unfolding(crate::specs::Headers::no_inter_modes))]
fn no_inter_modes() -> InterModes
    ensures { result ≡ no_inter_modes }
{
    InterModes {
        intra: 0,
        last: 0,
        golden: 0,
        y: None,
        chroma: None,
        vectors: [None; 38],
    }
}

// The probabilities of an inter frame's modes and vectors (9.10, 16.2 and 17.2).
fn read_inter_modes(decoder: &mut Decoder<'_>) -> InterModes
    ensures reads { run inter_modes decoder.old ≡ (result, decoder.new) }
{
    let intra = small(decoder, 8);
    let last = small(decoder, 8);
    let golden = small(decoder, 8);
    let y = optional_four(decoder);
    let chroma = optional_three(decoder);
    let mut vectors = [None; 38];
    vector_updates(decoder, &mut vectors);
    InterModes {
        intra,
        last,
        golden,
        y,
        chroma,
        vectors,
    }
}

// A header of its parts.
#[tactic(auto, unfolding(crate::specs::Headers::header_made))]
fn header_made(
    tag: &Tag,
    colour: bool,
    clamping: bool,
    segments: &Segments,
    filtering: &Filtering,
    log2: u8,
    quantisers: &Quantisers,
    refreshing: &Refreshing,
    coefficients: [Option<u8>; 1056],
    modes: &Modes,
) -> Header
    ensures { result ≡ header_made tag.now.key tag.now.shown colour clamping segments.now filtering.now log2 quantisers.now refreshing.now coefficients modes.now }
{
    let updates = updates_made(coefficients, &modes.inter);
    Header {
        key: tag.key,
        shown: tag.shown,
        colour,
        clamping,
        segmentation: segments.on,
        update_map: segments.update_map,
        update_data: segments.update_data,
        absolute: segments.data.absolute,
        simple: filtering.simple,
        deltas: filtering.on,
        update_deltas: filtering.update,
        refresh_entropy: refreshing.entropy,
        refresh_golden: refreshing.golden,
        refresh_alt: refreshing.alt,
        bias_golden: refreshing.bias_golden,
        bias_alt: refreshing.bias_alt,
        refresh_last: refreshing.last,
        skips: modes.skips,
        quantisers: segments.data.quantisers,
        levels: segments.data.levels,
        ref_deltas: filtering.deltas.references,
        mode_deltas: filtering.deltas.modes,
        map: segments.map,
        level: filtering.level,
        sharpness: filtering.sharpness,
        log2,
        y_ac: quantisers.y_ac,
        copy_golden: refreshing.copy_golden,
        copy_alt: refreshing.copy_alt,
        prob_skip: modes.skip,
        prob_intra: modes.inter.intra,
        prob_last: modes.inter.last,
        prob_golden: modes.inter.golden,
        y_dc: quantisers.y_dc,
        y2_dc: quantisers.y2_dc,
        y2_ac: quantisers.y2_ac,
        uv_dc: quantisers.uv_dc,
        uv_ac: quantisers.uv_ac,
        updates,
    }
}

// A header's updates of probabilities.
fn updates_made(coefficients: [Option<u8>; 1056], modes: &InterModes) -> Updates
    ensures { result ≡ record { coefficients = coefficients; vectors = modes.now.vectors; y = modes.now.y; chroma = modes.now.chroma } }
{
    Updates {
        coefficients,
        vectors: modes.vectors,
        y: modes.y,
        chroma: modes.chroma,
    }
}

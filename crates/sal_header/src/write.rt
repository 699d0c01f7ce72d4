//! The parts of a header, each written as its bits in the order of RFC 6386, section 19.2.

ghost use Rattle.std.specs.Prelude.{◌≡◌, ℕ, List, Bool, not, OnOk, OnErr};
ghost use Rattle.sal_bool.specs.Bits.{start};
ghost use Rattle.sal_bool.specs.Syntax.{read, Follows};
ghost use Rattle.sal_bool.specs.Written.{steps, written, AreFit};
ghost use Rattle.sal_header.specs.declared.header.Kept.{Kept};
ghost use Rattle.sal_header.specs.Headers.{header_of};
ghost use Rattle.sal_bool.specs.Pairs.{pairs_when, all_pairs};
ghost use Rattle.sal_bool.specs.Put.{PutSome};
ghost use Rattle.sal_header.specs.Written.{segments_of, filtering_of, quantisers_of, refreshing_of, inter_modes_of, modes_of, map_pairs, data_pairs, segments_pairs, deltas_pairs, filtering_pairs, quantisers_pairs, inter_refreshing_pairs, refreshing_pairs, inter_modes_pairs, modes_pairs, header_pairs, IsWritable};

use crate::header::Header;
use crate::parts::{Deltas, Filtering, InterModes, Quantisers, Refreshing, SegmentData, Segments};
use crate::put::{
    put_coefficients, put_flag, put_flag_when, put_flagged, put_four_deltas, put_four_flagged,
    put_literal, put_literal_when, put_optional_four, put_optional_three, put_three_map,
    put_vectors,
};
use sal_base::Memory;
use sal_bool::Encoder;

/// Writes a header whose fields are in range; one that isn't written has the value that it is read with over what some
/// state keeps. It is read back with any bits before it and after it, and reading stands then where writing stood. After want of
/// memory a front of its bits was written, and not the last of them.
pub fn write_header(encoder: &mut Encoder, header: &Header) -> Result<(), Memory>
    requires { (kept : Kept) × IsWritable kept header.now }
    ensures pairs { OnOk result (encoder.new ≡ steps encoder.old (header_pairs header.now)) }
    ensures some { OnErr result (PutSome encoder.old (header_pairs header.now) encoder.new) }
    ensures follows { OnOk result ((kept : Kept) → IsWritable kept header.now → Follows (header_of header.now.key header.now.shown kept) (header_pairs header.now) header.now) }
    ensures read_back { OnOk result ((before more : List (ℕ × Bool)) → AreFit before → AreFit more → encoder.old ≡ steps start before → (kept : Kept) → IsWritable kept header.now → (read (written (steps encoder.new more)) encoder.old (header_of header.now.key header.now.shown kept)).0 ≡ header.now) }
    ensures read_to { OnOk result ((before more : List (ℕ × Bool)) → AreFit before → AreFit more → encoder.old ≡ steps start before → (kept : Kept) → IsWritable kept header.now → (read (written (steps encoder.new more)) encoder.old (header_of header.now.key header.now.shown kept)).1 ≡ encoder.new) }
{
    put_flag_when(encoder, header.key, header.colour)?;
    put_flag_when(encoder, header.key, header.clamping)?;
    put_segments(encoder, &segments_of(header))?;
    put_filtering(encoder, &filtering_of(header))?;
    put_literal(encoder, 2, header.log2)?;
    put_quantisers(encoder, &quantisers_of(header))?;
    put_refreshing(encoder, header.key, &refreshing_of(header))?;
    put_coefficients(encoder, &header.updates.coefficients)?;
    put_modes(encoder, header)?;
    Ok(())
}

fn segments_of(header: &Header) -> Segments
    ensures { result ≡ segments_of header.now }
{
    let quantisers = header.quantisers;
    let levels = header.levels;
    let map = header.map;
    Segments {
        on: header.segmentation,
        update_map: header.update_map,
        update_data: header.update_data,
        data: SegmentData {
            absolute: header.absolute,
            quantisers,
            levels,
        },
        map,
    }
}

fn filtering_of(header: &Header) -> Filtering
    ensures { result ≡ filtering_of header.now }
{
    let references = header.ref_deltas;
    let modes = header.mode_deltas;
    Filtering {
        simple: header.simple,
        level: header.level,
        sharpness: header.sharpness,
        on: header.deltas,
        update: header.update_deltas,
        deltas: Deltas { references, modes },
    }
}

fn quantisers_of(header: &Header) -> Quantisers
    ensures { result ≡ quantisers_of header.now }
{
    Quantisers {
        y_ac: header.y_ac,
        y_dc: header.y_dc,
        y2_dc: header.y2_dc,
        y2_ac: header.y2_ac,
        uv_dc: header.uv_dc,
        uv_ac: header.uv_ac,
    }
}

fn refreshing_of(header: &Header) -> Refreshing
    ensures { result ≡ refreshing_of header.now }
{
    Refreshing {
        golden: header.refresh_golden,
        alt: header.refresh_alt,
        copy_golden: header.copy_golden,
        copy_alt: header.copy_alt,
        bias_golden: header.bias_golden,
        bias_alt: header.bias_alt,
        entropy: header.refresh_entropy,
        last: header.refresh_last,
    }
}

fn inter_modes_of(header: &Header) -> InterModes
    ensures { result ≡ inter_modes_of header.now }
{
    let y = header.updates.y;
    let chroma = header.updates.chroma;
    let vectors = header.updates.vectors;
    InterModes {
        intra: header.prob_intra,
        last: header.prob_last,
        golden: header.prob_golden,
        y,
        chroma,
        vectors,
    }
}

// Segments (9.3).
fn put_segments(encoder: &mut Encoder, segments: &Segments) -> Result<(), Memory>
    ensures all { OnOk result (encoder.new ≡ steps encoder.old (segments_pairs segments.now)) }
    ensures some { OnErr result (PutSome encoder.old (segments_pairs segments.now) encoder.new) }
{
    put_flag(encoder, segments.on)?;
    put_flag_when(encoder, segments.on, segments.update_map)?;
    put_flag_when(encoder, segments.on, segments.update_data)?;
    put_data_when(encoder, segments.update_data, &segments.data)?;
    put_map_when(encoder, segments.update_map, &segments.map)?;
    Ok(())
}

fn put_data_when(encoder: &mut Encoder, there: bool, values: &SegmentData) -> Result<(), Memory>
    ensures all { OnOk result (encoder.new ≡ steps encoder.old (pairs_when there (data_pairs values.now))) }
    ensures some { OnErr result (PutSome encoder.old (pairs_when there (data_pairs values.now)) encoder.new) }
{
    if there {
        put_data(encoder, values)
    } else {
        Ok(())
    }
}

fn put_data(encoder: &mut Encoder, values: &SegmentData) -> Result<(), Memory>
    ensures all { OnOk result (encoder.new ≡ steps encoder.old (data_pairs values.now)) }
    ensures some { OnErr result (PutSome encoder.old (data_pairs values.now) encoder.new) }
{
    put_flag(encoder, values.absolute)?;
    put_four_flagged(encoder, 7, &values.quantisers)?;
    put_four_flagged(encoder, 6, &values.levels)?;
    Ok(())
}

fn put_map_when(encoder: &mut Encoder, there: bool, map: &[u8; 3]) -> Result<(), Memory>
    ensures all { OnOk result (encoder.new ≡ steps encoder.old (pairs_when there (all_pairs map_pairs map.now))) }
    ensures some { OnErr result (PutSome encoder.old (pairs_when there (all_pairs map_pairs map.now)) encoder.new) }
{
    if there {
        put_three_map(encoder, map)
    } else {
        Ok(())
    }
}

// The loop filter (9.4).
fn put_filtering(encoder: &mut Encoder, filtering: &Filtering) -> Result<(), Memory>
    ensures all { OnOk result (encoder.new ≡ steps encoder.old (filtering_pairs filtering.now)) }
    ensures some { OnErr result (PutSome encoder.old (filtering_pairs filtering.now) encoder.new) }
{
    put_flag(encoder, filtering.simple)?;
    put_literal(encoder, 6, filtering.level)?;
    put_literal(encoder, 3, filtering.sharpness)?;
    put_flag(encoder, filtering.on)?;
    put_flag_when(encoder, filtering.on, filtering.update)?;
    put_deltas_when(encoder, filtering.update, &filtering.deltas)?;
    Ok(())
}

fn put_deltas_when(encoder: &mut Encoder, there: bool, deltas: &Deltas) -> Result<(), Memory>
    ensures all { OnOk result (encoder.new ≡ steps encoder.old (pairs_when there (deltas_pairs deltas.now))) }
    ensures some { OnErr result (PutSome encoder.old (pairs_when there (deltas_pairs deltas.now)) encoder.new) }
{
    if there {
        put_deltas(encoder, deltas)
    } else {
        Ok(())
    }
}

fn put_deltas(encoder: &mut Encoder, deltas: &Deltas) -> Result<(), Memory>
    ensures all { OnOk result (encoder.new ≡ steps encoder.old (deltas_pairs deltas.now)) }
    ensures some { OnErr result (PutSome encoder.old (deltas_pairs deltas.now) encoder.new) }
{
    put_four_deltas(encoder, &deltas.references)?;
    put_four_deltas(encoder, &deltas.modes)?;
    Ok(())
}

// The quantiser's index and its deltas (9.6).
fn put_quantisers(encoder: &mut Encoder, quantisers: &Quantisers) -> Result<(), Memory>
    ensures all { OnOk result (encoder.new ≡ steps encoder.old (quantisers_pairs quantisers.now)) }
    ensures some { OnErr result (PutSome encoder.old (quantisers_pairs quantisers.now) encoder.new) }
{
    put_literal(encoder, 7, quantisers.y_ac)?;
    put_flagged(encoder, 4, quantisers.y_dc)?;
    put_flagged(encoder, 4, quantisers.y2_dc)?;
    put_flagged(encoder, 4, quantisers.y2_ac)?;
    put_flagged(encoder, 4, quantisers.uv_dc)?;
    put_flagged(encoder, 4, quantisers.uv_ac)?;
    Ok(())
}

// Which references and probabilities the frame leaves (9.7, 9.10 and 9.11).
fn put_refreshing(encoder: &mut Encoder, key: bool, refreshing: &Refreshing) -> Result<(), Memory>
    ensures all { OnOk result (encoder.new ≡ steps encoder.old (refreshing_pairs key refreshing.now)) }
    ensures some { OnErr result (PutSome encoder.old (refreshing_pairs key refreshing.now) encoder.new) }
{
    if key {
        put_flag(encoder, refreshing.entropy)
    } else {
        put_inter_refreshing(encoder, refreshing)
    }
}

fn put_inter_refreshing(encoder: &mut Encoder, refreshing: &Refreshing) -> Result<(), Memory>
    ensures all { OnOk result (encoder.new ≡ steps encoder.old (inter_refreshing_pairs refreshing.now)) }
    ensures some { OnErr result (PutSome encoder.old (inter_refreshing_pairs refreshing.now) encoder.new) }
{
    put_flag(encoder, refreshing.golden)?;
    put_flag(encoder, refreshing.alt)?;
    put_literal_when(encoder, !refreshing.golden, 2, refreshing.copy_golden)?;
    put_literal_when(encoder, !refreshing.alt, 2, refreshing.copy_alt)?;
    put_flag(encoder, refreshing.bias_golden)?;
    put_flag(encoder, refreshing.bias_alt)?;
    put_flag(encoder, refreshing.entropy)?;
    put_flag(encoder, refreshing.last)?;
    Ok(())
}

// The probabilities of macroblocks' modes (9.10 and 9.11).
fn put_modes(encoder: &mut Encoder, header: &Header) -> Result<(), Memory>
    ensures all { OnOk result (encoder.new ≡ steps encoder.old (modes_pairs header.now.key (modes_of header.now))) }
    ensures some { OnErr result (PutSome encoder.old (modes_pairs header.now.key (modes_of header.now)) encoder.new) }
{
    put_flag(encoder, header.skips)?;
    put_literal_when(encoder, header.skips, 8, header.prob_skip)?;
    put_inter_modes_when(encoder, !header.key, &inter_modes_of(header))?;
    Ok(())
}

fn put_inter_modes_when(
    encoder: &mut Encoder,
    there: bool,
    modes: &InterModes,
) -> Result<(), Memory>
    ensures all { OnOk result (encoder.new ≡ steps encoder.old (pairs_when there (inter_modes_pairs modes.now))) }
    ensures some { OnErr result (PutSome encoder.old (pairs_when there (inter_modes_pairs modes.now)) encoder.new) }
{
    if there {
        put_inter_modes(encoder, modes)
    } else {
        Ok(())
    }
}

// The probabilities of an inter frame's modes and vectors (9.10, 16.2 and 17.2).
fn put_inter_modes(encoder: &mut Encoder, modes: &InterModes) -> Result<(), Memory>
    ensures all { OnOk result (encoder.new ≡ steps encoder.old (inter_modes_pairs modes.now)) }
    ensures some { OnErr result (PutSome encoder.old (inter_modes_pairs modes.now) encoder.new) }
{
    put_literal(encoder, 8, modes.intra)?;
    put_literal(encoder, 8, modes.last)?;
    put_literal(encoder, 8, modes.golden)?;
    put_optional_four(encoder, &modes.y)?;
    put_optional_three(encoder, &modes.chroma)?;
    put_vectors(encoder, &modes.vectors)?;
    Ok(())
}

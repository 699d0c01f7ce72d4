//! The dequantisation factors of segments (RFC 6386, sections 9.3, 9.6 and 14.1).

ghost use Rattle.std.specs.Prelude.{◌≡◌, ◌<◌};
ghost use Rattle.sal_base.specs.Samples.{listed};
ghost use Rattle.sal_frame.specs.Records.{quantiser_of, segment_factors};

use sal_header::Header;
use sal_transform::{Factors, cut_off};

// A segment's quantiser index: its own, or on top of the frame's; without segmentation the frame's.
fn quantiser_of(header: &Header, segment: usize) -> u8
    requires { segment < 4 }
    ensures { result ≡ quantiser_of header.now segment }
{
    if !header.segmentation {
        header.y_ac
    } else if header.absolute {
        cut_off(header.quantisers[segment] as i32)
    } else {
        cut_off(header.y_ac as i32 + header.quantisers[segment] as i32)
    }
}

// The factors of a segment's macroblocks.
#[tactic(auto, unfolding(crate::specs::Records::segment_factors))]
pub(crate) fn segment_factors(header: &Header, segment: u8) -> Factors
    requires { segment < 4 }
    ensures { result ≡ segment_factors header.now segment }
{
    let index = quantiser_of(header, segment as usize);
    Factors::new(
        index,
        header.y_dc,
        header.y2_dc,
        header.y2_ac,
        header.uv_dc,
        header.uv_ac,
    )
}

/// The factors of all four segments, worked out once a frame.
pub fn frame_factors(header: &Header) -> [Factors; 4]
    ensures { result ≡ listed 4 (segment_factors header.now) }
{
    [
        segment_factors(header, 0),
        segment_factors(header, 1),
        segment_factors(header, 2),
        segment_factors(header, 3),
    ]
}

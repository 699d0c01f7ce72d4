//! What the loop filter is told of a frame and of its macroblocks (RFC 6386, sections 9.3, 9.4 and 15).

ghost use Rattle.std.specs.Prelude.{◌≡◌};
ghost use Rattle.sal_frame.specs.Records.{filter_head, info_of};

use crate::macroblock::Macroblock;
use sal_filter::{FilterHead, MbInfo};
use sal_header::Header;

/// The loop filter's settings in a frame.
#[tactic(auto, unfolding(crate::specs::Records::filter_head))]
pub fn filter_head(header: &Header) -> FilterHead
    ensures { result ≡ filter_head header.now }
{
    FilterHead {
        key: header.key,
        simple: header.simple,
        level: header.level,
        sharpness: header.sharpness,
        segments: if header.segmentation {
            Some((header.absolute, header.levels))
        } else {
            None
        },
        deltas: if header.deltas {
            Some((header.ref_deltas, header.mode_deltas))
        } else {
            None
        },
    }
}

/// What the loop filter needs of a macroblock.
#[tactic(auto, unfolding(crate::specs::Records::info_of))]
pub fn info_of(block: &Macroblock<'_>) -> MbInfo
    ensures { result ≡ info_of block.now }
{
    MbInfo {
        mode: *block.mode,
        inner: !block.mode.has_y2() || (!block.mode.skip && block.has_coefficients),
    }
}

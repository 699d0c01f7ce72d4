use super::*;
use sal_base::{SubMode, YMode};
use std::test::Fail;

#[test]
fn blocks_follow_their_edges(rt: HostRuntime) -> Result<(), Fail> {
    let chroma = ChromaEdge {
        above: [10; 8],
        left: [21; 8],
        corner: 0,
        has_above: true,
        has_left: true,
    };
    assert_eq!(rt; predict_chroma(YMode::DC, &chroma), [16u8; 64]);
    assert_eq!(rt; predict_chroma(YMode::TM, &chroma), [31u8; 64]);
    let mut luma = LumaEdge {
        above: [127; 20],
        left: [129; 16],
        corner: 127,
        has_above: false,
        has_left: false,
    };
    assert_eq!(rt; predict_luma(YMode::DC, &luma), [128u8; 256]);
    luma.left[15] = 7;
    let samples = predict_luma(YMode::H, &luma);
    assert_eq!(rt; (samples[239], samples[240], samples[255]), (129, 7, 7));
    Ok(())
}

#[test]
fn subblocks_follow_their_modes(rt: HostRuntime) -> Result<(), Fail> {
    let edge = SubEdge {
        above: [11, 200, 37, 90, 151, 62, 243, 5],
        left: [73, 140, 9, 222],
        corner: 101,
    };
    assert_eq!(rt; predict_sub(SubMode::BDC, &edge), [98u8; 16]);
    assert_eq!(rt;
        predict_sub(SubMode::BHU, &edge),
        [
            107u8, 91, 75, 95, 75, 95, 116, 169, 116, 169, 222, 222, 222, 222, 222, 222
        ]
    );
    assert_eq!(rt;
        predict_sub(SubMode::BVL, &edge),
        [
            106u8, 119, 64, 121, 112, 91, 92, 114, 119, 64, 121, 130, 91, 92, 114, 138
        ]
    );
    assert_eq!(rt; predict_sub(SubMode::BRD, &edge)[12], 95);
    Ok(())
}

use super::*;
use sal_base::{SubMode, Vector, YMode};
use std::test::Fail;

#[test]
fn a_macroblock_tells_its_kind(rt: HostRuntime) -> Result<(), Fail> {
    let outside = MbMode::outside();
    assert!(rt; !outside.is_inter());
    assert!(rt; outside.has_y2());
    let mut split = MbMode {
        reference: RefKind::Golden,
        y: YMode::SPLIT,
        ..outside
    };
    split.vectors[15] = Vector { row: -3, column: 9 };
    assert!(rt; split.is_inter());
    assert!(rt; !split.has_y2());
    assert_eq!(rt; split.vector(), Vector { row: -3, column: 9 });
    assert_eq!(rt; outside.sub[7], SubMode::BDC);
    Ok(())
}

#[test]
fn coefficients_stand_by_block(rt: HostRuntime) {
    let mut coefficients = Coefficients::none();
    let mut block = Block([0; 16]);
    block.0[15] = -2114;
    coefficients.put(23, block);
    assert_eq!(rt; *coefficients.block(23), block);
    assert_eq!(rt; *coefficients.block(24), Block([0; 16]));
    coefficients.clear();
    assert_eq!(rt; *coefficients.block(23), Block([0; 16]));
}

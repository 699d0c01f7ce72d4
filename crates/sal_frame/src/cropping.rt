//! Pictures cut out of whole macroblocks (RFC 6386, section 9.1).

ghost use Rattle.std.specs.Prelude.{◌≡◌, ◌≤◌, ◌+◌, ◌*◌, length, IfOk};
ghost use Rattle.sal_base.specs.Picture.{AreSides, IsPlane, IsPicture};
ghost use Rattle.sal_base.specs.Pictures.{cut, cropped, blocks_of};
ghost use Rattle.sal_state.specs.States.{HasBlocks};

use sal_base::{Bytes, Memory, Picture, Plane, Planes};
use std::alloc::Global;

// The first columns and rows of a plane.
fn cut(alloc: Global, plane: &Plane, width: u16, height: u16) -> Result<Plane, Memory>
    requires wide { width ≤ plane.now.width }
    requires samples { length plane.now.samples ≡ plane.now.width * plane.now.height }
    requires high { height ≤ plane.now.height }
    ensures cut { IfOk result (λ p. p ≡ cut width height plane.now) }
    ensures whole { IfOk result (IsPlane width height) }
{
    let stride = plane.width as usize;
    let columns = width as usize;
    let mut samples = Vec::new(alloc);
    samples.reserve(columns * height as usize)?;
    let from = plane.samples.as_slice();
    for row in 0..height as usize {
        samples.extend_from_slice(&from[row * stride..row * stride + columns])?;
    }
    Ok(Plane {
        width,
        height,
        samples: Bytes::from_vec(samples),
    })
}

/// A picture of this size out of planes of its macroblocks.
pub fn crop(alloc: Global, planes: &Planes, width: u16, height: u16) -> Result<Picture, Memory>
    requires sides { AreSides width height }
    requires blocks { HasBlocks (blocks_of width) (blocks_of height) planes.now }
    ensures cropped { IfOk result (λ p. p ≡ cropped width height planes.now) }
    ensures whole { IfOk result IsPicture }
{
    Ok(Picture {
        width,
        height,
        y: cut(alloc, &planes.y, width, height)?,
        u: cut(alloc, &planes.u, width.div_ceil(2), height.div_ceil(2))?,
        v: cut(alloc, &planes.v, width.div_ceil(2), height.div_ceil(2))?,
    })
}

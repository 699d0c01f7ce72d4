//! Pictures of three planes, 8 bits a sample, chroma halved both ways.

ghost use Rattle.std.specs.Prelude.{◌≡◌, ◌↔◌, IsTrue, IfOk, IsErrOf};
ghost use Rattle.sal_base.specs.Picture.{AreSides, plane_of, flat_picture, IsPlane, IsPicture};

use crate::bytes::Bytes;
use crate::limits::{MAX_HEIGHT, MAX_WIDTH};
use std::alloc::{AllocError, Global};

/// The samples of one colour: `width * height` of them, row by row.
#[derive(Debug, Drop)]
pub struct Plane {
    /// Samples in a row.
    pub width: u16,
    /// Rows.
    pub height: u16,
    /// The samples, row by row from the top, each row from the left.
    pub samples: Bytes,
}

/// The planes of whole macroblocks: luma sides are multiples of 16, chroma sides are half of them.
#[derive(Debug, Drop)]
pub struct Planes {
    /// Luma.
    pub y: Plane,
    /// Chroma, blue less luma.
    pub u: Plane,
    /// Chroma, red less luma.
    pub v: Plane,
}

/// A picture in samples of luma; the sides of the chroma planes are halved, rounded up.
#[derive(Debug, Drop)]
pub struct Picture {
    /// Samples of luma in a row, 1 to 1,280.
    pub width: u16,
    /// Rows of luma, 1 to 720.
    pub height: u16,
    /// Luma.
    pub y: Plane,
    /// Chroma, blue less luma.
    pub u: Plane,
    /// Chroma, red less luma.
    pub v: Plane,
}

/// Why there is no picture.
#[derive(Clone, Copy, Debug, PartialEq, Eq)]
pub enum PictureFault {
    /// A side is 0 or above its limit.
    BadSize,
    /// There was no memory for its planes.
    Memory,
}

/// Whether a picture may have these sides.
pub fn are_sides(width: u16, height: u16) -> bool
    ensures { IsTrue result ↔ AreSides width height }
{
    width >= 1 && width <= MAX_WIDTH && height >= 1 && height <= MAX_HEIGHT
}

fn flat_plane(alloc: Global, width: u16, height: u16, value: u8) -> Result<Plane, AllocError>
    ensures made { IfOk result (λ p. p ≡ plane_of width height value) }
    ensures whole { IfOk result (IsPlane width height) }
{
    let samples = Bytes::repeat(alloc, value, width as usize * height as usize)?;
    Ok(Plane {
        width,
        height,
        samples,
    })
}

impl Picture {
    /// A picture whose samples are all `value`.
    pub fn new(alloc: Global, width: u16, height: u16, value: u8) -> Result<Picture, PictureFault>
        ensures size { IsErrOf result PictureFault.BadSize ↔ ¬ AreSides width height }
        ensures sides { IfOk result (λ p. AreSides width height) }
        ensures whole { IfOk result IsPicture }
        ensures made { IfOk result (λ p. p ≡ flat_picture width height value) }
    {
        if !are_sides(width, height) {
            return Err(PictureFault::BadSize);
        }
        let y = flat_plane(alloc, width, height, value).map_err(|_| PictureFault::Memory)?;
        let u = flat_plane(alloc, width.div_ceil(2), height.div_ceil(2), value).map_err(
            |_| PictureFault::Memory,
        )?;
        let v = flat_plane(alloc, width.div_ceil(2), height.div_ceil(2), value).map_err(
            |_| PictureFault::Memory,
        )?;
        Ok(Picture {
            width,
            height,
            y,
            u,
            v,
        })
    }
}

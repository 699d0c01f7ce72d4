//! Pictures as one row of samples.

ghost use Rattle.std.specs.Prelude.{◌≡◌, IfOk, length};
ghost use Rattle.sal_base.specs.Picture.{IsPicture};
ghost use Rattle.sal_base.specs.Pictures.{plane};
ghost use Rattle.sal_codec.specs.Raw.{IsRaw, raw_of, picture_of, luma_count, chroma_count, sample_count};

use sal_base::{Bytes, Memory, Picture, Plane};
use std::alloc::{AllocError, Global};

/// A picture's sides in samples of luma, and all its samples: Y, then U, then V, each row by row.
#[derive(Debug, Drop)]
pub struct RawPicture {
    pub width: u16,
    pub height: u16,
    pub samples: Bytes,
}

/// How many samples the luma plane of a picture has.
pub(crate) fn luma_count(width: u16, height: u16) -> usize
    ensures { result ≡ luma_count width height }
{
    width as usize * height as usize
}

/// How many samples each chroma plane of a picture has.
pub(crate) fn chroma_count(width: u16, height: u16) -> usize
    ensures { result ≡ chroma_count width height }
{
    width.div_ceil(2) as usize * height.div_ceil(2) as usize
}

/// How many samples the three planes of a picture have.
pub(crate) fn sample_count(width: u16, height: u16) -> usize
    ensures { result ≡ sample_count width height }
{
    luma_count(width, height) + chroma_count(width, height) + chroma_count(width, height)
}

/// A copy of a plane.
fn plane_copy(alloc: Global, width: u16, height: u16, samples: &[u8]) -> Result<Plane, AllocError>
    ensures { IfOk result (λ p. p ≡ plane width height samples.now) }
{
    Ok(Plane {
        width,
        height,
        samples: Bytes::from_slice(alloc, samples)?,
    })
}

impl RawPicture {
    /// The samples of a picture, copied.
    pub fn from_picture(alloc: Global, picture: &Picture) -> Result<RawPicture, Memory>
        ensures { IfOk result (λ r. r ≡ raw_of picture.now) }
    {
        let count = sample_count(picture.width, picture.height);
        let mut samples = Vec::with_capacity(alloc, count)?;
        samples.extend_from_slice(picture.y.samples.as_slice())?;
        samples.extend_from_slice(picture.u.samples.as_slice())?;
        samples.extend_from_slice(picture.v.samples.as_slice())?;
        Ok(RawPicture {
            width: picture.width,
            height: picture.height,
            samples: Bytes::from_vec(samples),
        })
    }

    /// The picture, its planes copied.
    pub fn to_picture(&self, alloc: Global) -> Result<Picture, Memory>
        requires { IsRaw self.now }
        ensures made { IfOk result (λ p. p ≡ picture_of self.now) }
        ensures whole { IfOk result IsPicture }
    {
        let (width, height) = (self.width, self.height);
        let (half_width, half_height) = (width.div_ceil(2), height.div_ceil(2));
        let (y, chroma) = self.samples.as_slice().split_at(luma_count(width, height));
        let (u, v) = chroma.split_at(chroma_count(width, height));
        Ok(Picture {
            width,
            height,
            y: plane_copy(alloc, width, height, y)?,
            u: plane_copy(alloc, half_width, half_height, u)?,
            v: plane_copy(alloc, half_width, half_height, v)?,
        })
    }
}

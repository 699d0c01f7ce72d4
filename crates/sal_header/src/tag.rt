//! The uncompressed bytes at the head of a frame, and the places of its partitions (RFC 6386, sections 9.1, 9.2 and 9.5).

ghost use Rattle.std.specs.Prelude.{◌≡◌, ◌+◌, ◌*◌, ◌<◌, ◌≤◌, true, length, Ok, Err, IfOk, IfErr};
ghost use Rattle.sal_base.specs.Picture.{AreSides};
ghost use Rattle.sal_header.specs.Tags.{little, is_start, side_at, head_length, sides_of, tag_of, first_part_of};

use sal_base::Fault;

/// The frame tag, and the sides of a key frame.
#[derive(Clone, Copy, Debug, PartialEq, Eq)]
pub struct Tag {
    /// Whether the frame is a key frame, which needs no other to be decoded.
    pub key: bool,
    /// Whether the frame is to be shown.
    pub shown: bool,
    /// The length of the first partition, in bytes: below 524,288.
    pub size: u32,
    /// In samples of luma, 1 to 1,280 on a key frame; 0 on an inter frame.
    pub width: u16,
    /// In samples of luma, 1 to 720 on a key frame; 0 on an inter frame.
    pub height: u16,
}

/// The tag and the start of a key frame, or their first fault.
#[tactic(auto, unfolding(crate::specs::Tags::tag_of))]
pub fn read_tag(bytes: &[u8]) -> Result<Tag, Fault>
    ensures value { result ≡ tag_of bytes.now }
    ensures long { IfOk result (λ t. head_length t.key ≤ length bytes.now) }
    ensures small { IfOk result (λ t. t.size < 524288) }
    ensures sides { IfOk result (λ t. t.key ≡ true → AreSides t.width t.height) }
{
    if bytes.len() < 3 {
        return Err(Fault::Short);
    }
    let word = number_at(bytes, 0);
    let version = (word / 2 % 8) as u8;
    if version != 0 {
        return Err(Fault::BadVersion(version));
    }
    let shown = word / 16 % 2 == 1;
    let size = word / 32;
    if word % 2 == 0 {
        let (width, height) = read_sides(bytes)?;
        return Ok(Tag {
            key: true,
            shown,
            size,
            width,
            height,
        });
    }
    Ok(Tag {
        key: false,
        shown,
        size,
        width: 0,
        height: 0,
    })
}

// The sides of a key frame, after its start code.
#[tactic(auto, unfolding(crate::specs::Tags::sides_of))]
fn read_sides(bytes: &[u8]) -> Result<(u16, u16), Fault>
    ensures value { result ≡ sides_of bytes.now }
    ensures long { IfOk result (λ s. 10 ≤ length bytes.now) }
    ensures sides { IfOk result (λ s. AreSides s.0 s.1) }
{
    if bytes.len() < 10 {
        return Err(Fault::Short);
    }
    if !has_start(bytes) {
        return Err(Fault::BadStart);
    }
    let width = side(bytes, 6);
    let height = side(bytes, 8);
    if width == 0 || height == 0 {
        return Err(Fault::ZeroSize);
    }
    if width > 1280 || height > 720 {
        return Err(Fault::TooLarge(width, height));
    }
    Ok((width, height))
}

// Whether a key frame's start code stands after the tag.
fn has_start(bytes: &[u8]) -> bool
    requires { 10 ≤ length bytes.now }
    ensures { result ≡ is_start bytes.now }
{
    bytes[3] == 0x9d && bytes[4] == 0x01 && bytes[5] == 0x2a
}

// A side without its scale.
fn side(bytes: &[u8], at: usize) -> u16
    requires { at + 2 ≤ length bytes.now }
    ensures { result ≡ side_at bytes.now at }
{
    (bytes[at] as u16 + 256 * bytes[at + 1] as u16) % 16384
}

// Three bytes as a number, lowest first.
pub(crate) fn number_at(bytes: &[u8], at: usize) -> u32
    requires { at + 3 ≤ length bytes.now }
    ensures value { result ≡ little 3 bytes.now at }
    ensures small { result < 16777216 }
{
    bytes[at] as u32 + 256 * (bytes[at + 1] as u32 + 256 * bytes[at + 2] as u32)
}

// How many bytes stand before the first partition.
pub(crate) fn head_length(key: bool) -> usize
    ensures { result ≡ head_length key }
{
    if key { 10 } else { 3 }
}

/// The first partition, or that it passes the end.
#[tactic(auto, unfolding(crate::specs::Tags::first_part_of))]
pub fn first_part<'a>(bytes: &'a [u8], tag: &Tag) -> Result<&'a [u8], Fault>
    ensures part { IfOk result (λ p. first_part_of bytes.now tag.now ≡ Ok p.now) }
    ensures fault { IfErr result (λ f. first_part_of bytes.now tag.now ≡ Err f) }
    ensures fits { IfOk result (λ p. head_length tag.now.key ≤ length bytes.now → head_length tag.now.key + tag.now.size ≤ length bytes.now) }
{
    let head = head_length(tag.key).min(bytes.len());
    let rest = &bytes[head..];
    let size = tag.size as usize;
    if rest.len() < size {
        return Err(Fault::FirstPart(tag.size, rest.len() as u32));
    }
    Ok(&rest[..size])
}

//! What stands before the macroblocks of a frame, or the first fault of its bytes (RFC 6386, sections 9.1 to 9.6 and 19.2).

ghost use Rattle.std.specs.Prelude.{◌≡◌, ◌*◌, ◌≤◌, List, [], IfOk, IfErr, IfSome, None, Ok, Err, true, false, length, take};
ghost use Rattle.sal_base.specs.Picture.{AreSides};
ghost use Rattle.sal_base.specs.Pictures.{blocks_of};
ghost use Rattle.sal_bool.specs.Reading.{Reading};
ghost use Rattle.sal_bool.specs.Syntax.{run};
ghost use Rattle.sal_probs.specs.Probabilities.{used};
ghost use Rattle.sal_header.specs.Tags.{AreInside};
ghost use Rattle.sal_macroblock.specs.declared.mode.MbMode.{MbMode};
ghost use Rattle.sal_decode.specs.FirstPartition.{mb_modes};
ghost use Rattle.sal_decode.specs.Syntax.{size_of, frame_of, record_of};

use sal_base::Fault;
use sal_bool::Decoder;
use sal_header::{Header, Parts, Tag, first_part, partitions, read_header, read_tag};
use sal_state::State;

/// The head of a frame: the size of its picture, its header, a decoder at the modes of its first macroblock, and the places of
/// its token partitions.
#[derive(Drop)]
pub(crate) struct Head<'a> {
    pub(crate) width: u16,
    pub(crate) height: u16,
    pub(crate) header: Header,
    pub(crate) decoder: Decoder<'a>,
    pub(crate) parts: Parts,
}

// The size of a frame's picture: a key frame's own, an inter frame's that of the references.
fn size(state: &State, tag: &Tag) -> Result<(u16, u16), Fault>
    requires { tag.now.key ≡ true → AreSides tag.now.width tag.now.height }
    ensures value { result ≡ size_of state.now tag.now }
    ensures sides { IfOk result (λ s. AreSides s.0 s.1) }
    ensures first { IfOk result (λ s. state.now.references ≡ None → tag.now.key ≡ true) }
    ensures same { IfOk result (λ s. IfSome state.now.references (λ r. tag.now.key ≡ false → (s.0 ≡ r.width) × (s.1 ≡ r.height))) }
{
    if tag.key {
        return Ok((tag.width, tag.height));
    }
    match state.references() {
        Some(references) => Ok((references.width, references.height)),
        None => Err(Fault::NoReference),
    }
}

/// The head of a frame, or the first fault of its bytes. It takes no memory.
pub(crate) fn read_head<'a>(state: &State, bytes: &'a [u8]) -> Result<Head<'a>, Fault>
    ensures fault { IfErr result (λ f. frame_of state.now bytes.now ≡ Err f) }
    ensures read { IfOk result (λ h. (ms : List MbMode) (d : Reading) → run (mb_modes h.header (used h.header.key state.now.kept.probs h.header.updates) (blocks_of h.width) (blocks_of h.height) (blocks_of h.width * blocks_of h.height) []) h.decoder ≡ (ms, d) → frame_of state.now bytes.now ≡ Ok (record_of state.now bytes.now (h.width, h.height) (take h.parts.count h.parts.at) (h.header, ms))) }
    ensures sides { IfOk result (λ h. AreSides h.width h.height) }
    ensures first { IfOk result (λ h. state.now.references ≡ None → h.header.key ≡ true) }
    ensures same { IfOk result (λ h. IfSome state.now.references (λ r. h.header.key ≡ false → (h.width ≡ r.width) × (h.height ≡ r.height))) }
    ensures count { IfOk result (λ h. (1 ≤ h.parts.count) × (h.parts.count ≤ 8)) }
    ensures inside { IfOk result (λ h. AreInside (length bytes.now) h.parts.at h.parts.count) }
{
    let tag = read_tag(bytes)?;
    let (width, height) = size(state, &tag)?;
    let mut decoder = Decoder::new(first_part(bytes, &tag)?);
    let header = read_header(&mut decoder, &tag, state.kept());
    let parts = partitions(bytes, &tag, header.log2)?;
    Ok(Head {
        width,
        height,
        header,
        decoder,
        parts,
    })
}

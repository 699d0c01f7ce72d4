//! What holds of plans and of the bytes that they are written as.

ghost use Rattle.std.specs.Prelude.{◌≡◌, ◌<◌, ◌≤◌, ℕ, List, length, Ok};
ghost use Rattle.sal_base.specs.declared.coding.Encoding.TheVariants.{Frame, Oversize};
ghost use Rattle.sal_base.specs.declared.picture.Picture.{Picture};
ghost use Rattle.sal_state.specs.States.{StateData};
ghost use Rattle.sal_decode.specs.Decode.{decode_of};
ghost use Rattle.sal_decode.specs.Syntax.{frame_of};
ghost use Rattle.sal_encode.specs.declared.plan.Plan.{Plan};
ghost use Rattle.sal_encode.specs.Plans.{record_of_plan, IsPlan};
ghost use Rattle.sal_encode.specs.FrameBytes.{first_bytes, plan_bytes};
ghost use Rattle.sal_encode.specs.Assembled.{assembled};

/// The bytes of a plan, from every state that it can be written from: they say what the plan says, and no more; decoding them gives the state and the picture of the plan's own record, and its show_frame. Where the first partition is longer than its
/// size can say, there is no frame (RFC 6386, section 9.1).
pub fn a_plan_is_decoded_as_its_record()
    ensures said { (s : StateData) (size : ℕ × ℕ) (p : Plan) → IsPlan s size p → length (first_bytes s size p) < 524288 → frame_of s (plan_bytes s size p) ≡ Ok (record_of_plan size p) }
    ensures decoded { (s : StateData) (size : ℕ × ℕ) (p : Plan) (bytes : List ℕ) (target : StateData) (recon : Picture) → IsPlan s size p → assembled s size p ≡ Frame bytes target recon → decode_of s bytes ≡ Ok (record { state = target; picture = recon; shown = p.header.shown }) }
    ensures oversize { (s : StateData) (size : ℕ × ℕ) (p : Plan) (first : ℕ) → assembled s size p ≡ Oversize first → (first ≡ length (first_bytes s size p)) × (524288 ≤ first) }
    ensures large { (s : StateData) (size : ℕ × ℕ) (p : Plan) → 524288 ≤ length (first_bytes s size p) → assembled s size p ≡ Oversize (length (first_bytes s size p)) }
{}

/// A frame has some bytes, and at most 43,364,299: ten at its head, 524,287 of the first partition, and two and seven eighths of
/// 13,600 bits for each of 3,600 macroblocks.
pub fn a_frame_has_few_bytes()
    ensures { (s : StateData) (size : ℕ × ℕ) (p : Plan) (bytes : List ℕ) (target : StateData) (recon : Picture) → IsPlan s size p → assembled s size p ≡ Frame bytes target recon → (0 < length bytes) × (length bytes ≤ 43364299) }
{}

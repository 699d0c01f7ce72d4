//! The frames sent at or above the floor, the newest first, each with whether its state was acknowledged.

ghost use Rattle.std.specs.Prelude.{◌≡◌, ◌==◌, map};
ghost use Rattle.std.specs.List.{list_any};
ghost use Rattle.sal_sender.specs.SentFrames.{safe_in, lost_in, overtaken, is_acknowledged_in, acknowledged_by};
ghost use Rattle.sal_sender.specs.Sending.{sent_at_in, pause_in};

use crate::choice::Choice;
use sal_base::Name;

/// A frame that was sent, with its source, and whether its state was acknowledged.
#[derive(Clone, Copy, Debug)]
pub struct SentFrame {
    /// The choice that it was sent for, which has its frame number, its source and its serials.
    pub choice: Choice,
    /// Whether the receiver said that it holds its state.
    pub is_acknowledged: bool,
}

// Whether an acknowledgement names this frame number.
fn names(held: &[(u32, Name)], frame_number: u32) -> bool
    ensures { result ≡ list_any (λ h. h.0 == frame_number) held.now }
{
    held.iter().any(|h| h.0 == frame_number)
}

/// Walks the source links from this frame number to the newest acknowledged frame; 0 where there is none.
#[tactic(auto, unfolding(crate::specs::SentFrames::safe_in))]
pub(crate) fn safe_in(sent_frames: &[SentFrame], frame_number: u32) -> u32
    ensures { result ≡ safe_in sent_frames.now frame_number }
{
    let Some((sent_frame, older)) = sent_frames.split_first() else {
        return 0;
    };
    if frame_number != sent_frame.choice.number {
        safe_in(older, frame_number)
    } else if sent_frame.is_acknowledged {
        frame_number
    } else {
        safe_in(older, sent_frame.choice.source)
    }
}

// Whether the greatest serial heard is at least three above the frame's last one.
fn is_overtaken(choice: &Choice, heard: u32) -> bool
    ensures { result ≡ overtaken heard choice.now }
{
    let last = (u64::from(choice.first_serial) + u64::from(choice.count)).saturating_sub(1);
    last + 3 <= u64::from(heard)
}

/// Walks the source links from this frame number, and says whether a frame above the safe one was overtaken.
#[tactic(auto, unfolding(crate::specs::SentFrames::lost_in))]
pub(crate) fn lost_in(sent_frames: &[SentFrame], safe: u32, heard: u32, frame_number: u32) -> bool
    ensures { result ≡ lost_in safe heard sent_frames.now frame_number }
{
    let Some((sent_frame, older)) = sent_frames.split_first() else {
        return false;
    };
    if frame_number != sent_frame.choice.number {
        return lost_in(older, safe, heard, frame_number);
    }
    (safe < frame_number && is_overtaken(&sent_frame.choice, heard))
        || lost_in(older, safe, heard, sent_frame.choice.source)
}

/// Whether the state of this frame number was acknowledged.
pub(crate) fn is_acknowledged(sent_frames: &[SentFrame], frame_number: u32) -> bool
    ensures { result ≡ is_acknowledged_in sent_frames.now frame_number }
{
    sent_frames
        .iter()
        .any(|l| l.choice.number == frame_number && l.is_acknowledged)
}

// The frame, acknowledged too where the acknowledgement names it.
fn acknowledged_by(sent_frame: SentFrame, held: &[(u32, Name)]) -> SentFrame
    ensures { result ≡ acknowledged_by held.now sent_frame }
{
    SentFrame {
        choice: sent_frame.choice,
        is_acknowledged: sent_frame.is_acknowledged || names(held, sent_frame.choice.number),
    }
}

/// Acknowledges all frames that are named.
#[tactic(auto, using(std::proofs::lemmas::List::Edits::map_over_more))]
pub(crate) fn acknowledge(sent_frames: &mut [SentFrame], held: &[(u32, Name)])
    ensures { sent_frames.new ≡ map (acknowledged_by held.now) sent_frames.old }
{
    for sent_frame in sent_frames.iter_mut() {
        *sent_frame = acknowledged_by(*sent_frame, held);
    }
}

/// The moment of the newest choice in microseconds, 0 before any.
pub(crate) fn sent_at(sent_frames: &[SentFrame]) -> u64
    ensures { result ≡ sent_at_in sent_frames.now }
{
    match sent_frames.first() {
        Some(sent_frame) => sent_frame.choice.moment,
        None => 0,
    }
}

/// The microseconds from the newest choice to this moment: 0 before any, at most 4,294,967,295.
pub(crate) fn pause(sent_frames: &[SentFrame], at: u64) -> u32
    ensures { result ≡ pause_in sent_frames.now at }
{
    match sent_frames.first() {
        Some(sent_frame) => at
            .saturating_sub(sent_frame.choice.moment)
            .min(4_294_967_295) as u32,
        None => 0,
    }
}

/// Acknowledges all frames of the list that are named.
pub(crate) fn hear(sent_frames: &mut Vec<SentFrame>, held: &[(u32, Name)])
    ensures { sent_frames.new.items ≡ map (acknowledged_by held.now) sent_frames.old.items }
{
    acknowledge(sent_frames.as_mut_slice(), held);
}

//! The states that an acknowledgement names, each by frame number and name.

ghost use Rattle.std.specs.Prelude.{◌≡◌, ◌≤◌, length};
ghost use Rattle.sal_base.specs.declared.limits.TheConstants.{WINDOW};
ghost use Rattle.sal_sender.specs.Hearing.{unsent_or_misnamed_in, first_wrong_in, is_new_in, newly_in};

use crate::answers::Ignore;
use crate::lists::FrameNumbers;
use crate::sent_frame::{SentFrame, is_acknowledged};
use sal_base::Name;
use sal_chain::Store;
use sal_codec::Codec;

// Why a state that is named can't be acknowledged: its frame number wasn't sent, or its own name is another one.
fn unsent_or_misnamed<C: Codec>(store: &Store<C>, tip: u32, held: &(u32, Name)) -> Option<Ignore>
    ensures { result ≡ unsent_or_misnamed_in tip store.now.kept held.now }
{
    let (number, name) = *held;
    if tip < number {
        return Some(Ignore::Unsent(number));
    }
    match store.get(number) {
        Some((own, _)) if own != name => Some(Ignore::Name(number, own, name)),
        _ => None,
    }
}

/// The first fault among those at or above the floor.
#[tactic(auto, unfolding(crate::specs::Hearing::first_wrong_in))]
pub(crate) fn first_wrong<C: Codec>(
    store: &Store<C>,
    floor: u32,
    tip: u32,
    held: &[(u32, Name)],
) -> Option<Ignore>
    ensures { result ≡ first_wrong_in floor tip store.now.kept held.now }
{
    let (first, more) = held.split_first()?;
    if floor <= first.0 {
        let why = unsent_or_misnamed(store, tip, first);
        if why.is_some() {
            return why;
        }
    }
    first_wrong(store, floor, tip, more)
}

// Whether a frame number stands at or above the floor and wasn't acknowledged before.
fn is_new(sent_frames: &[SentFrame], floor: u32, held: &(u32, Name)) -> bool
    ensures { result ≡ is_new_in sent_frames.now floor held.now }
{
    floor <= held.0 && !is_acknowledged(sent_frames, held.0)
}

/// The frame numbers at or above the floor that are named for the first time.
pub(crate) fn newly_named(
    sent_frames: &[SentFrame],
    floor: u32,
    held: &[(u32, Name)],
) -> FrameNumbers
    requires { length held.now ≤ WINDOW }
    ensures { result ≡ newly_in sent_frames.now floor held.now }
{
    let mut numbers = FrameNumbers::new();
    for h in held {
        if is_new(sent_frames, floor, h) {
            numbers.push(h.0);
        }
    }
    numbers
}

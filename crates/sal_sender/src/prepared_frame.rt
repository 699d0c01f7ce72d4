//! A frame that is ready to be sent, with all that the sender keeps of it.

ghost use Rattle.std.specs.Prelude.{◌≡◌, IfOk, filter, nat_le};
ghost use Rattle.sal_sender.specs.Sending.{with_choice};

use crate::choice::Choice;
use crate::lists::Burst;
use crate::sent_frame::SentFrame;
use sal_base::{Memory, Name};
use std::alloc::Global;

/// A chosen frame with its datagrams, for which all memory was taken: sending it only moves these. T is a share of a state.
#[derive(Drop)]
pub struct PreparedFrame<T> {
    /// The choice that it is sent for.
    pub choice: Choice,
    /// The name of the state that it leads to.
    pub name: Name,
    /// The state that it leads to.
    pub state: T,
    /// The sent frames from its floor on, it among them.
    pub sent_frames: Vec<SentFrame>,
    /// Its datagrams, in the order of their serials.
    pub burst: Burst,
}

// Drops the frames below the floor.
fn keep_from(sent_frames: &mut Vec<SentFrame>, floor: u32)
    ensures { sent_frames.new.items ≡ filter (λ l. nat_le floor l.choice.number) sent_frames.old.items }
{
    sent_frames.retain(|l| floor <= l.choice.number);
}

/// The sent frames with one more choice, without those below its floor.
pub(crate) fn with_choice(
    alloc: Global,
    sent_frames: &[SentFrame],
    choice: Choice,
) -> Result<Vec<SentFrame>, Memory>
    ensures { IfOk result (λ v. v.items ≡ with_choice sent_frames.now choice) }
{
    let mut with_choice = Vec::from_slice(alloc, sent_frames)?;
    keep_from(&mut with_choice, choice.floor);
    with_choice.insert(
        0,
        SentFrame {
            choice,
            is_acknowledged: false,
        },
    )?;
    Ok(with_choice)
}

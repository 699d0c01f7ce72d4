//! What the receiver answers.

use sal_base::{Fault, Name, Picture};
use sal_reasm::ClashField;
use sal_wire::{Ack, WireFault};
use sal_y4m::Head;

/// Why a datagram is left alone; the first cause that holds, in this order.
#[derive(Clone, Copy, Debug, PartialEq, Eq)]
pub enum Refuse {
    /// The bytes are no datagram, for this reason.
    Wire(WireFault),
    /// The datagram is an acknowledgement, which only a sender hears.
    Kind,
    /// The datagram is of another session than the first fragment or bye that was taken.
    Session,
    /// The fragment says another size or rate than the first one that was taken: the session's own, and what it says.
    Size(Head, Head),
    /// The fragment differs from what is kept of its frame: the first field that differs, then the kept and the new value,
    /// as `sal_reasm::Offered::Clash` has them.
    Clash(ClashField, u64, u64),
}

/// What a datagram is answered.
#[derive(Drop)]
pub enum Delivered {
    /// The fragment was taken, also where it is a repeat or its frame number is below the floor: the acknowledgement to
    /// send back.
    Taken(Ack),
    /// The session ends: the frame number of the last frame that its sender sent, 0 where none was.
    Ended(u32),
    /// The datagram is left alone for this cause; nothing changed.
    Refused(Refuse),
    /// There was no memory for the fragment; nothing changed.
    Memory,
}

/// Why a frame can't be shown.
#[derive(Clone, Copy, Debug, PartialEq, Eq)]
pub enum Misfit {
    /// The bytes are no frame of the source, for this reason.
    Fault(Fault),
    /// The picture hasn't the session's size: its own width and height, in samples of luma.
    Size(u16, u16),
}

/// What a decoding is answered. Frame numbers are from 1 to `MAX_FRAMES`.
#[derive(Drop)]
pub enum Done {
    /// The frame number isn't out: it was never handed out, or was reported before. Nothing changed.
    Stranger,
    /// There was no memory for the decoding: the frame with this frame number is ready again.
    Returned(u32),
    /// The frame with this frame number can't be shown, for this reason. Its state isn't kept.
    Unfit(u32, Misfit),
    /// The state has another name than the fragments of its frame said: the name that they said, and the state's own. It
    /// is neither shown nor kept.
    Misnamed(Name, Name),
    /// The frame with this frame number isn't shown, since a number at least as great was: the greatest one shown. Its
    /// state is kept, where its number isn't below the floor.
    Older(u32, u32),
    /// The picture of this frame number is to be shown: the number is above every one that was shown before. Its state is
    /// kept, where its number isn't below the floor.
    Show(u32, Picture),
}

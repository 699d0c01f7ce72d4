//! What may happen in a world, and what it is answered.

ghost use Rattle.std.specs.Prelude.{◌≡◌, not};
ghost use Rattle.sal_sender.specs.Answers.{starts};
ghost use Rattle.sal_world.specs.Answers.{is_refused, is_choice_refused, is_delivery_refused, is_ack_refused, of_next, of_choose, of_deliver, of_hear};

use sal_base::Picture;
use sal_codec::Codec;
use sal_receiver::{Decoding, Delivered, Done, Ready};
use sal_sender::{Choice, Chosen, HeardAck, Job, Next, Report, Reported, Sizes};
use std::sync::Arc;

/// What happens next.
#[derive(Drop)]
pub enum Event<C: Codec> {
    /// This picture, which has the session's size, is started.
    Next(Arc<Picture>),
    /// The job of the least id that waits is handed out.
    Take,
    /// A job that was handed out ran, and this is its report.
    Report(Report<C>),
    /// One of the reports of the open picture is chosen, and its datagrams are sent.
    Choose,
    /// The datagram of this number, counted from 1, comes to the receiver.
    Down(u32),
    /// The acknowledgement of this number, counted from 1, comes back to the sender.
    Up(u64),
    /// The ready frame of the least number is handed out.
    Ready,
    /// A frame that was handed out was decoded.
    Decoded(Decoding<C>),
    /// It is this moment, in microseconds, or a later one.
    Moment(u64),
}

/// What an event is answered.
#[derive(Drop)]
pub enum Answer<C: Codec> {
    /// The sender's answer to a picture.
    Next(Next),
    /// The job that is handed out, if one waited.
    Take(Option<Job<C>>),
    /// The sender's answer to a report.
    Report(Reported),
    /// Nothing was sent, for this reason, which is never `Chosen::Sent` or `Chosen::Memory`.
    Choose(Chosen),
    /// The datagrams of this choice were sent.
    Sent(Choice),
    /// The receiver's answer to a datagram.
    Down(Delivered),
    /// The sender's answer to an acknowledgement.
    Up(HeardAck),
    /// The frame that is handed out, if one waited.
    Ready(Option<Ready<C>>),
    /// The receiver's answer to a decoding.
    Decoded(Done),
    /// The moment after the event, in microseconds.
    Moment(u64),
    /// There is no datagram, or no acknowledgement, of this number: it is 0, or it is above the last one, which is the second number.
    Unsent(u64, u64),
    /// There was no memory for the event, which didn't happen.
    Memory,
}

/// What a choice is answered; the datagrams of one that is sent go to the world's list.
#[derive(Drop)]
pub enum ChooseAnswer {
    /// No picture is open.
    NoPicture,
    /// The report of the job of this id is needed, and isn't in.
    Waiting(u32),
    /// The datagrams of this choice were sent; its count is their number.
    Sent(Choice),
    /// Nothing fits, and the picture is closed: how many datagrams may be sent now, and the sizes of the candidates.
    Nothing(u32, Sizes),
    /// There was no memory; nothing changed.
    Memory,
}

/// No datagram, or no acknowledgement, of a number was sent.
#[derive(Clone, Copy, Debug, PartialEq, Eq)]
pub struct Unsent {
    /// The number that was named: 0, or above the last one.
    pub number: u64,
    /// The number of the last one that was sent, 0 where there is none.
    pub last: u64,
}

// The answer to the event of a picture that is started.
pub(crate) fn of_next<C: Codec>(answer: Next) -> Answer<C>
    ensures answer { result ≡ of_next answer }
    ensures refused { is_refused result ≡ not (starts answer) }
{
    match answer {
        Next::Memory => Answer::Memory,
        answer => Answer::Next(answer),
    }
}

// The answer to the event of a choice.
pub(crate) fn of_choose<C: Codec>(answer: ChooseAnswer) -> Answer<C>
    ensures answer { result ≡ of_choose answer }
    ensures refused { is_refused result ≡ is_choice_refused answer }
{
    match answer {
        ChooseAnswer::NoPicture => Answer::Choose(Chosen::NoPicture),
        ChooseAnswer::Waiting(id) => Answer::Choose(Chosen::Waiting(id)),
        ChooseAnswer::Sent(choice) => Answer::Sent(choice),
        ChooseAnswer::Nothing(budget, sizes) => Answer::Choose(Chosen::Nothing(budget, sizes)),
        ChooseAnswer::Memory => Answer::Memory,
    }
}

// The answer to the event of a datagram.
pub(crate) fn of_deliver<C: Codec>(answer: Result<Delivered, Unsent>) -> Answer<C>
    ensures answer { result ≡ of_deliver answer }
    ensures refused { is_refused result ≡ is_delivery_refused answer }
{
    match answer {
        Ok(Delivered::Memory) => Answer::Memory,
        Ok(answer) => Answer::Down(answer),
        Err(unsent) => Answer::Unsent(unsent.number, unsent.last),
    }
}

// The answer to the event of an acknowledgement.
pub(crate) fn of_hear<C: Codec>(answer: Result<HeardAck, Unsent>) -> Answer<C>
    ensures answer { result ≡ of_hear answer }
    ensures refused { is_refused result ≡ is_ack_refused answer }
{
    match answer {
        Ok(answer) => Answer::Up(answer),
        Err(unsent) => Answer::Unsent(unsent.number, unsent.last),
    }
}

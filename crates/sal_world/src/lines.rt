//! The line of each answer, where it has one.

ghost use Rattle.std.specs.Prelude.{◌≡◌, IfSome, IfNone};
ghost use Rattle.sal_sender.specs.declared.outcome.Gave.{Gave};
ghost use Rattle.sal_sender.specs.JobWork.{encoded, given};
ghost use Rattle.sal_world.specs.History.{start_line, take_line, size_made, choice_line, down_line, up_line, ready_line, decoded_line};

use crate::diary::{Line, ReportSize};
use crate::event::{ChooseAnswer, Unsent};
use sal_codec::Codec;
use sal_receiver::{Delivered, Done, Ready};
use sal_sender::{HeardAck, Ignore, Job, Next, Outcome, Report};

/// The line of a picture that is started, by the number that it gets.
pub fn start_line(number: u32, answer: Next) -> Option<Line>
    ensures { result ≡ start_line number answer }
{
    match answer {
        Next::Started(_) => Some(Line::Next(number)),
        Next::NotChosen(_) | Next::Full | Next::Memory => None,
    }
}

/// The line of a job that is handed out.
pub fn take_line<C: Codec>(job: &Option<Job<C>>) -> Option<Line>
    ensures { result ≡ take_line job.now }
{
    match job {
        Some(job) => Some(Line::Take(job.id(), job.role())),
        None => None,
    }
}

/// How large the frame of a report is, unless there was no memory for it.
pub fn size_of_report<C: Codec>(report: &Report<C>) -> Option<ReportSize>
    ensures size { IfSome result (λ size. size ≡ size_made C.coding (encoded C.coding report.now.work)) }
    ensures gave { IfSome result (λ size. report.now.gave ≡ given (encoded C.coding report.now.work)) }
    ensures none { IfNone result (report.now.gave ≡ Gave.NoMemory) }
{
    match report.named_outcome() {
        (name, Outcome::Frame(bytes, _, _)) => Some(ReportSize::Frame(
            u32::try_from(bytes.len()).unwrap_or(u32::MAX),
            name,
        )),
        (_, Outcome::Oversize(first)) => Some(ReportSize::Oversize(*first)),
        (_, Outcome::NoMemory) => None,
    }
}

/// The line of a choice.
pub fn choice_line(answer: ChooseAnswer) -> Option<Line>
    ensures { result ≡ choice_line answer }
{
    match answer {
        ChooseAnswer::Sent(choice) => Some(Line::Choose(
            choice.number,
            choice.job,
            choice.source,
            choice.count,
        )),
        ChooseAnswer::Nothing(budget, sizes) => Some(Line::Nothing(budget, sizes)),
        ChooseAnswer::NoPicture | ChooseAnswer::Waiting(_) | ChooseAnswer::Memory => None,
    }
}

/// The line of a datagram that came.
pub fn down_line(which: u32, answer: &Result<Delivered, Unsent>) -> Option<Line>
    ensures { result ≡ down_line which answer.now }
{
    match answer {
        Ok(Delivered::Taken(_)) => Some(Line::Down(which)),
        _ => None,
    }
}

/// The line of an acknowledgement that came back, which is heard or old.
pub fn up_line(which: u64, answer: &Result<HeardAck, Unsent>) -> Option<Line>
    ensures { result ≡ up_line which answer.now }
{
    match answer {
        Ok(HeardAck::Heard(_)) => Some(Line::Up(which, true)),
        Ok(HeardAck::Ignored(Ignore::Old)) => Some(Line::Up(which, false)),
        _ => None,
    }
}

/// The line of a frame that is handed out.
pub fn ready_line<C: Codec>(frame: &Option<Ready<C>>) -> Option<Line>
    ensures { result ≡ ready_line frame.now }
{
    match frame {
        Some(frame) => Some(Line::Ready(frame.number())),
        None => None,
    }
}

/// The line of a decoding.
pub fn decoded_line(done: &Done) -> Option<Line>
    ensures { result ≡ decoded_line done.now }
{
    match done {
        Done::Show(number, _) => Some(Line::Decoded(*number, true)),
        Done::Older(number, _) => Some(Line::Decoded(*number, false)),
        _ => None,
    }
}

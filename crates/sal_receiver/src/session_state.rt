//! What a receiver keeps of the session.

ghost use Rattle.std.specs.Prelude.{◌≡◌, Some};
ghost use Rattle.sal_wire.specs.Fields.{fields_of};
ghost use Rattle.sal_reasm.specs.Offer.{or_else};
ghost use Rattle.sal_receiver.specs.Past.{head_of};
ghost use Rattle.sal_receiver.specs.Answers.{is_other, same_head, session_cause, size_cause, first_of, has_size};
ghost use Rattle.sal_receiver.specs.Known.{nothing_known, known_after, known_after_end};

use crate::answers::Refuse;
use sal_base::Picture;
use sal_budget::Gap;
use sal_wire::Fragment;
use sal_y4m::Head;

/// The session with its size and rate, the greatest moment, and the gap between arrivals.
#[derive(Clone, Copy, Debug)]
pub struct SessionState {
    /// The session of the first fragment or bye that was taken, none before.
    pub session: Option<u32>,
    /// The size, in samples of luma, and the rate that the first fragment that was taken said, none before.
    pub head: Option<Head>,
    /// The greatest moment of a fragment or bye that was taken, in microseconds, 0 before any.
    pub moment: u64,
    /// The moving average of the gaps between arrivals, in microseconds, and the greatest serial that came.
    pub gap: Gap,
}

// The kept value, or the new one where there is none.
fn or<T>(kept: Option<T>, new: T) -> Option<T>
where
    T: Copy,
    ensures { result ≡ or_else kept (Some new) }
{
    match kept {
        Some(kept) => Some(kept),
        None => Some(new),
    }
}

// Whether two sizes and rates are the same; rates are compared as they are written.
fn same_head(a: Head, b: Head) -> bool
    ensures { result ≡ same_head a b }
{
    a.width == b.width && a.height == b.height && a.rate.0 == b.rate.0 && a.rate.1 == b.rate.1
}

// The size and rate that a fragment says.
fn head_of(f: &Fragment) -> Head
    ensures { result ≡ head_of (fields_of f.now) }
{
    Head {
        width: f.width,
        height: f.height,
        rate: f.rate,
    }
}

impl SessionState {
    /// Before any datagram.
    pub(crate) fn start() -> SessionState
        ensures { result ≡ nothing_known }
    {
        SessionState {
            session: None,
            head: None,
            moment: 0,
            gap: Gap::start(),
        }
    }

    // Whether a session is another one than the one that is known.
    fn is_other(&self, session: u32) -> bool
        ensures { result ≡ is_other self.now.session session }
    {
        match self.session {
            Some(known) => known != session,
            None => false,
        }
    }

    /// The cause for which a datagram of another session is left alone.
    pub(crate) fn session_cause(&self, session: u32) -> Option<Refuse>
        ensures { result ≡ session_cause self.now.session session }
    {
        if self.is_other(session) {
            Some(Refuse::Session)
        } else {
            None
        }
    }

    // The cause for which a fragment of another size or rate is left alone.
    fn size_cause(&self, new: Head) -> Option<Refuse>
        ensures { result ≡ size_cause self.now.head new }
    {
        match self.head {
            Some(own) if !same_head(own, new) => Some(Refuse::Size(own, new)),
            _ => None,
        }
    }

    /// The first cause in the session, size and rate for which a fragment is left alone.
    pub(crate) fn cause(&self, f: &Fragment) -> Option<Refuse>
        ensures { result ≡ first_of (session_cause self.now.session (fields_of f.now).session) (size_cause self.now.head (head_of (fields_of f.now))) }
    {
        let other = self.session_cause(f.session);
        if other.is_some() {
            return other;
        }
        self.size_cause(head_of(f))
    }

    /// Whether a picture has the session's size.
    pub(crate) fn has_size(&self, picture: &Picture) -> bool
        ensures { result ≡ has_size self.now.head picture.now }
    {
        match self.head {
            Some(own) => picture.width == own.width && picture.height == own.height,
            None => false,
        }
    }

    /// Takes the arrival of a fragment.
    pub(crate) fn arrive(&mut self, f: &Fragment, moment: u64)
        ensures { self.new ≡ known_after (fields_of f.now) moment self.old }
    {
        self.session = or(self.session, f.session);
        self.head = or(self.head, head_of(f));
        self.moment = moment.max(self.moment);
        self.gap.arrive(self.moment, f.serial, f.pause);
    }

    /// Takes the end of a session.
    pub(crate) fn end(&mut self, session: u32, moment: u64)
        ensures { self.new ≡ known_after_end session moment self.old }
    {
        self.session = or(self.session, session);
        self.moment = moment.max(self.moment);
    }
}

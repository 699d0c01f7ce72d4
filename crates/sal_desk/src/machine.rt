//! What a desk is made over.

ghost use Rattle.std.specs.Prelude.{◌≡◌, List, [], ◌∷◌, ◌++◌};

/// A sequential object. Its history is the list of its entries so far, one for each call.
///
/// Each relation speaks of a start: the machine as it was when the desk was made over it, as contracts see it.
pub trait Machine {
    /// What a machine is asked to do. Where there is no memory for the history a call is dropped.
    type Call: Drop;

    /// The answer to a call.
    type Reply;

    /// What stands in the history for a call and its answer.
    type Entry: Drop;

    // The machine is as these entries leave the start.
    ghost stands: { Self → Self → List Self.Entry → Type 0 };

    // The call may be given after these entries.
    ghost may: { Self → List Self.Entry → Self.Call → Type 0 };

    // What a call is answered after these entries, and the entry that then stands for it.
    ghost answers: { Self → List Self.Entry → Self.Call → Self.Reply → Self.Entry → Type 0 };

    // The entry may come after these entries.
    ghost follows: { Self → List Self.Entry → Self.Entry → Type 0 };

    // The answer to a call that was not made.
    ghost voided: { Self.Reply };

    /// One call, as it is answered after the entries for which the machine stands.
    fn step(&mut self, call: Self::Call) -> (Self::Reply, Self::Entry)
        requires { (start : Self) × ((log : List Self.Entry) × (stands start self.old log × may start log call)) }
        ensures answered { (start : Self) (log : List Self.Entry) → stands start self.old log → may start log call → answers start log call result.0 result.1 }
        ensures follows { (start : Self) (log : List Self.Entry) → stands start self.old log → may start log call → follows start log result.1 }
        ensures stands { (start : Self) (log : List Self.Entry) → stands start self.old log → may start log call → stands start self.new (log ++ result.1 ∷ []) };

    /// The reply to a call that was not made, since there was no memory for its entry.
    fn void() -> Self::Reply
        ensures { result ≡ voided };

    // What may be given stays so when entries follow.
    ghost may_stays: { (start : Self) (log more : List Self.Entry) (call : Self.Call) → may start log call → may start (log ++ more) call };
}

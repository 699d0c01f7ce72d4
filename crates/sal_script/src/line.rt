//! What a line may say.

/// One line of a script.
#[derive(Clone, Copy, Debug, PartialEq, Eq)]
pub enum ScriptLine {
    /// The next picture is started, all its jobs run, and one is chosen and sent.
    Next,
    /// As `Next`, but the finest job comes after the choice.
    NextLate,
    /// The datagram of this number, from 1, comes to the receiver.
    Down(u32),
    /// The acknowledgement of this number, from 1, comes to the sender.
    Up(u32),
    /// Each datagram that no line before named comes to the receiver.
    DownAll,
    /// Each acknowledgement that no line before named comes to the sender.
    UpAll,
    /// So many microseconds pass, at most 1,000,000,000.
    Wait(u32),
    /// Each picture left is sent, and all that comes of it is delivered.
    Rest,
}

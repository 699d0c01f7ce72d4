//! What reassembly gives back.

ghost use Rattle.sal_reasm.specs.Split.{ReassemblesWhatWasSplit};

/// The fragments of a frame give the bytes that were split, in whatever order and however often they came: a fact that a
/// caller's proof has after this call; it does nothing.
pub fn reassembles_what_was_split()
    ensures { ReassemblesWhatWasSplit }
{}

//! Why bytes are no datagram.

/// Which test fails.
#[derive(Clone, Copy, Debug, PartialEq, Eq)]
pub enum Wire {
    /// The bytes end before the head does; the place is their number.
    Short,
    /// The first byte names no kind.
    Kind,
    /// Another version than 1.
    Version,
    /// A serial of 0.
    Serial,
    /// A frame number outside 1 to 1,048,575, or a floor that isn't among it and the 15 numbers below it.
    Window,
    /// A count outside 1 to 4,096, or an index not below it.
    Index,
    /// A side outside the limits of a picture.
    Size,
    /// A zero in the rate.
    Rate,
    /// A length that isn't that of the bytes, or one that this place in the frame can't have.
    Length,
    /// More than 16 states, or a frame number outside 1 to 1,048,575 or not above the one before.
    Held,
}

/// The first test that fails, and the offset of the bytes that it is about.
#[derive(Clone, Copy, Debug, PartialEq, Eq)]
pub struct WireFault {
    /// The first test that fails.
    pub what: Wire,
    /// The offset of the field that it is about, in bytes from 0; for `Short` the number of bytes, at most 55.
    pub place: u16,
}

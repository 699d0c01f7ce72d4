//! The parts of a header, each read and written by itself.

/// What is said of each segment (RFC 6386, section 9.3).
#[derive(Clone, Copy)]
pub(crate) struct SegmentData {
    /// Whether these stand for the frame's own, else they are added to them.
    pub absolute: bool,
    /// From -127 to 127.
    pub quantisers: [i8; 4],
    /// From -63 to 63.
    pub levels: [i8; 4],
}

/// Segments (section 9.3).
#[derive(Clone, Copy)]
pub(crate) struct Segments {
    /// Whether there are segments.
    pub on: bool,
    /// Whether each macroblock says its segment.
    pub update_map: bool,
    /// Whether the data is said.
    pub update_data: bool,
    /// The data, the state's where it isn't said.
    pub data: SegmentData,
    /// The probabilities of the tree that macroblocks say their segments by, 0 where they don't.
    pub map: [u8; 3],
}

/// The filter's deltas (section 9.4).
#[derive(Clone, Copy)]
pub(crate) struct Deltas {
    /// For intra, last, golden and alt, from -63 to 63.
    pub references: [i8; 4],
    /// For B, zero, other and split vectors, from -63 to 63.
    pub modes: [i8; 4],
}

/// The loop filter (section 9.4).
#[derive(Clone, Copy)]
pub(crate) struct Filtering {
    /// Whether it is the simple filter.
    pub simple: bool,
    /// At most 63.
    pub level: u8,
    /// At most 7.
    pub sharpness: u8,
    /// Whether the deltas are in use.
    pub on: bool,
    /// Whether the deltas are said.
    pub update: bool,
    /// The deltas, the state's where they aren't said.
    pub deltas: Deltas,
}

/// The quantiser's index and its deltas (section 9.6).
#[derive(Clone, Copy)]
pub(crate) struct Quantisers {
    /// The index, at most 127.
    pub y_ac: u8,
    /// For the first coefficient of luma blocks, from -15 to 15, as all deltas.
    pub y_dc: i8,
    /// For the first coefficient of second-order blocks.
    pub y2_dc: i8,
    /// For the other coefficients of second-order blocks.
    pub y2_ac: i8,
    /// For the first coefficient of chroma blocks.
    pub uv_dc: i8,
    /// For the other coefficients of chroma blocks.
    pub uv_ac: i8,
}

/// Which references and probabilities a frame leaves (sections 9.7, 9.10 and 9.11).
#[derive(Clone, Copy)]
pub(crate) struct Refreshing {
    /// Whether the picture becomes golden; false in a key frame, as all but `entropy`.
    pub golden: bool,
    /// Whether the picture becomes alt.
    pub alt: bool,
    /// What is copied to golden: 1 last, 2 alt, else nothing.
    pub copy_golden: u8,
    /// What is copied to alt: 1 last, 2 golden, else nothing.
    pub copy_alt: u8,
    /// The sign bias of golden: whether vectors on it are negated beside those on last.
    pub bias_golden: bool,
    /// The sign bias of alt, alike.
    pub bias_alt: bool,
    /// Whether the probabilities serve the next frames too.
    pub entropy: bool,
    /// Whether the picture becomes last.
    pub last: bool,
}

/// The probabilities of an inter frame's modes and vectors (sections 9.10, 16.2 and 17.2).
#[derive(Clone, Copy)]
pub(crate) struct InterModes {
    /// The probability, of 256, that a macroblock is intra.
    pub intra: u8,
    /// The probability, of 256, that an inter macroblock's reference is last.
    pub last: u8,
    /// The probability, of 256, that it is golden, where it isn't last.
    pub golden: u8,
    /// New probabilities of the Y modes.
    pub y: Option<[u8; 4]>,
    /// New probabilities of the chroma modes.
    pub chroma: Option<[u8; 3]>,
    /// New probabilities of vectors, 19 of the row and 19 of the column.
    pub vectors: [Option<u8>; 38],
}

/// The probabilities of macroblocks' modes (sections 9.10 and 9.11).
#[derive(Clone, Copy)]
pub(crate) struct Modes {
    /// Whether macroblocks say that they have no coefficients.
    pub skips: bool,
    /// The probability, of 256, that a macroblock has coefficients, 0 where none says so.
    pub skip: u8,
    /// Those of an inter frame's modes; none in a key frame.
    pub inter: InterModes,
}

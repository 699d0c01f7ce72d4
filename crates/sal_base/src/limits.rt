//! The limits of a session that several layers speak of.

/// The widest picture, in samples of luma.
pub const MAX_WIDTH: u16 = 1280;

/// The highest picture, in samples of luma.
pub const MAX_HEIGHT: u16 = 720;

/// The greatest frame number and the greatest picture number of a session; both count from 1.
pub const MAX_FRAMES: u32 = 1_048_575;

/// How many frame numbers a window has: those from the floor to `floor + 15`.
pub const WINDOW: u32 = 16;

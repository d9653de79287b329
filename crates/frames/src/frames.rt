// A set of frame numbers below 256, one bit each; `members` makes and reads it, `algebra` has its answers as a kind.
pub mod algebra;
mod members;

ghost use Rattle.frames.specs.Sizes.{frame_bytes};
ghost use Rattle.sets.specs.Bytes.{Bytes};

pub use members::FrameRuns;

// How many numbers a set tells apart.
pub const FRAMES: u32 = 256;

const BYTES: usize = 32;

// Frame f is bit f % 8 of byte f / 8, bit 0 lowest. An amount lies in a row, so the bytes are an array.
#[derive(Clone, Copy, PartialEq, Eq)]
pub struct Frames {
    bytes: [u8; BYTES],
    ghost sound: { Bytes frame_bytes bytes },
}

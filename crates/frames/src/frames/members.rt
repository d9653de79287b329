// Frames made from a run, and read back: one by one, or run by run.
ghost use Rattle.std.specs.Prelude.{◌≡◌, ◌-◌, ◌*◌, ◌<◌, ◌≤◌, IfOk, Decides};
ghost use Rattle.frames.specs.FrameSets.{frame, make_frames, frame_runs};
ghost use Rattle.frames.specs.Listed.{FirstRun};
ghost use Rattle.frames.specs.Sizes.{frame_count};
ghost use Rattle.lists.specs.Listed.{listed};
ghost use Rattle.sets.specs.Bytes.{mask};
ghost use Rattle.sets.specs.Members.{Has};
ghost use Rattle.sets.specs.Runs.{within};

use crate::frames::{BYTES, FRAMES, Frames};
use kind::AmountRefusal;
use lists::FixedList;
use sets::Run;
use std::array;

// The number after the last frame.
const END: u16 = FRAMES as u16;

// No set of frames has more runs.
const RUN_PLACES: usize = 128;

// The runs of a set of frames.
pub type FrameRuns = FixedList<Run, RUN_PLACES>;

// The lowest n bits of a byte, at n.
const LOW_BITS: [u8; 9] = [0, 1, 3, 7, 15, 31, 63, 127, 255];

// Byte `i` of the set of all numbers below `end`.
fn byte_below(end: u16, i: usize) -> u8
    requires { i < 32 }
    ensures { result ≡ mask (end - i * 8) }
{
    let n = end.saturating_sub(i as u16 * 8).min(8);
    LOW_BITS[n as usize]
}

impl Frames {
    // The frames from `from` up to `to` - 1, refused unless there is one and all are below `FRAMES`.
    pub fn from_run(from: u32, to: u32) -> Result<Frames, AmountRefusal>
        ensures answer { result ≡ make_frames from to }
        ensures contents { IfOk result (Has frame_count frame (within from to)) }
    {
        let Run { from, to } = Run::below(END, from, to)?;
        Ok(Frames {
            bytes: array::from_fn(|i| byte_below(to, i) ^ byte_below(from, i)),
        })
    }

    // Is frame `f` in the set?
    #[tactic(auto, using(std::proofs::lemmas::Nat::Bits::shr_and_one), unfolding(sets::specs::Bytes::bit_of))]
    pub fn has(&self, f: u8) -> bool
        ensures { Decides result (frame self.now f ≡ 1) }
    {
        (self.bytes[f as usize / 8] >> (f % 8)) & 1 == 1
    }

    // The first run of the frames from `at` on.
    fn run_from(&self, at: u16) -> Option<Run>
        requires { at ≤ frame_count }
        ensures { FirstRun (frame self.now) at result }
    {
        let from = (at..END).find(|k| self.has(*k as u8))?;
        let to = (from..END).find(|k| !self.has(*k as u8)).unwrap_or(END);
        Some(Run { from, to })
    }

    // The longest runs of the frames, lowest first.
    pub fn runs(&self) -> FrameRuns
        ensures { listed result ≡ frame_runs self.now }
    {
        let mut list = FrameRuns::new(Run::default());
        let mut at = 0;
        'scan: while let Some(run) = self.run_from(at) {
            // There is a place for each run.
            let _ = list.push(run);
            at = run.to;
        }
        list
    }
}

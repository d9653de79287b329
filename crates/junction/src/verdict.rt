// What a junction holds, and whether a stage fits.
ghost use Rattle.frames.specs.FrameSets.{frame};
ghost use Rattle.frames.specs.Sizes.{frame_count};
ghost use Rattle.junction.specs.Verdicts.{first_shared, held_after, verdict};
ghost use Rattle.windows.specs.Sizes.{second_count};
ghost use Rattle.windows.specs.WindowSets.{window};
ghost use Rattle.std.specs.Prelude.{◌≡◌};

use crate::conflict::Conflict;
use frames::{FRAMES, Frames};
use kind::Kind;
use kinds::EngineAmount;
use windows::{SECONDS, Windows};

// The first frame that both have. Where they fit there is none, and none is looked for.
#[tactic(auto, using(crate::proofs::Right::no_shared_frame), unfolding(crate::specs::Verdicts::first_shared))]
fn shared_frame(held: &Frames, wanted: &Frames) -> Option<u16>
    ensures { result ≡ first_shared frame_count (frame held.now) (frame wanted.now) }
{
    if held.fits(wanted) {
        return None;
    }
    (0..FRAMES as u16).find(|k| held.has(*k as u8) && wanted.has(*k as u8))
}

// The first second that both have, likewise. A trait that has `has`, or a function of two closures, would be longer than these lines.
#[tactic(auto, using(crate::proofs::Right::no_shared_second), unfolding(crate::specs::Verdicts::first_shared))]
fn shared_second(held: &Windows, wanted: &Windows) -> Option<u16>
    ensures { result ≡ first_shared second_count (window held.now) (window wanted.now) }
{
    if held.fits(wanted) {
        return None;
    }
    (0..SECONDS).find(|k| held.has(*k as u8) && wanted.has(*k as u8))
}

// Whether a stage that takes `wanted` fits: vehicles are looked at first, then frames, then seconds.
fn judge(held: &EngineAmount, wanted: &EngineAmount) -> Result<(), Conflict>
    ensures { result ≡ verdict held.now wanted.now }
{
    if !held.first.fits(&wanted.first) {
        return Err(Conflict::TooManyVehicles);
    }
    if let Some(frame) = shared_frame(&held.second.first, &wanted.second.first) {
        return Err(Conflict::FrameHeld(frame));
    }
    if let Some(second) = shared_second(&held.second.second, &wanted.second.second) {
        return Err(Conflict::SecondHeld(second));
    }
    Ok(())
}

// Adds what a stage takes to what is held, if it fits.
#[tactic(auto, using(crate::proofs::Right::added, crate::proofs::Right::refused))]
pub fn add(held: &mut EngineAmount, wanted: &EngineAmount) -> Result<(), Conflict>
    ensures verdict { result ≡ verdict held.old wanted.now }
    ensures held { held.new ≡ held_after held.old wanted.now }
{
    judge(held, wanted)?;
    *held = held.join(wanted);
    Ok(())
}

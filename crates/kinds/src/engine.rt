// The engine's bundle: what a stage of a junction takes.
ghost use Rattle.kinds.specs.Bundles.{both};
ghost use Rattle.std.specs.Prelude.{◌≡◌};

use crate::bundle::Bundle;
use count::Count;
use frames::Frames;
use windows::Windows;

// A count of vehicles, with frames and seconds of green.
pub type EngineAmount = Bundle<Count, Bundle<Frames, Windows>>;

// The three amounts together; a `From` of a triple would not name them.
pub fn engine_amount(count: Count, frames: Frames, windows: Windows) -> EngineAmount
    ensures { result ≡ both count (both frames windows) }
{
    Bundle {
        first: count,
        second: Bundle {
            first: frames,
            second: windows,
        },
    }
}

// An amount as it is written, and the amount that it stands for.
ghost use Rattle.amounts.specs.Judging.{judged};
ghost use Rattle.amounts.specs.Reading.{written, after_three};
ghost use Rattle.notation.specs.Left.{left};
ghost use Rattle.std.specs.Prelude.{◌≡◌, Ok, MatchOption};

use count::Count;
use frames::Frames;
use kind::{AmountRefusal, Kind};
use kinds::{EngineAmount, engine_amount};
use notation::{Pieces, Span, next_number, next_part};
use windows::Windows;

// A count, and for frames and for windows a run or none; nothing is judged yet.
#[derive(Clone, Copy)]
pub struct Written {
    pub count: u32,
    pub frames: Option<Span>,
    pub windows: Option<Span>,
}

// The next three pieces, read as a count, frames and windows; all three are taken.
pub fn next_written(source: &mut Pieces) -> Option<Written>
    ensures value { result ≡ written (left source.old) }
    ensures rest { left source.new ≡ after_three (left source.old) }
{
    let count = next_number(source);
    let frames = next_part(source);
    let windows = next_part(source);
    Some(Written {
        count: count?,
        frames: frames?,
        windows: windows?,
    })
}

// What is made of a run, or the empty amount.
fn judge<K: Kind, F: FnOnce(u32, u32) -> Result<K, AmountRefusal>>(
    part: Option<Span>,
    from_run: F,
) -> Result<K, AmountRefusal>
    requires { F.IsAlwaysCallable from_run }
    ensures { MatchOption part (result ≡ Ok K.answers.empty) (λ span. F.post from_run span.from span.to result) }
{
    part.map_or(Ok(K::empty()), |span| from_run(span.from, span.to))
}

impl Written {
    // The amount, or why there is none: the count is judged first, then the frames, then the windows.
    pub fn amount(&self) -> Result<EngineAmount, AmountRefusal>
        ensures { result ≡ judged self.now }
    {
        let count = Count::try_from(self.count)?;
        let frames = judge(self.frames, Frames::from_run)?;
        let windows = judge(self.windows, Windows::from_run)?;
        Ok(engine_amount(count, frames, windows))
    }
}

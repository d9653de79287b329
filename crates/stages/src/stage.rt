// A stage, read from a line of a plan.
ghost use Rattle.notation.specs.Left.{left};
ghost use Rattle.stages.specs.Stages.{as_named, stage_fields, stage};
ghost use Rattle.std.specs.Option.{option_map};
ghost use Rattle.std.specs.Prelude.{◌≡◌};

use crate::names::read_name;
use amounts::{Written, next_written};
use notation::Pieces;

// What a stage is called, and what it takes.
#[derive(Clone, Copy)]
pub struct Stage<'a> {
    pub name: &'a str,
    pub takes: Written,
}

// A name, an amount and nothing more.
fn read_fields(mut fields: Pieces<'_>) -> Option<Stage<'_>>
    ensures { option_map as_named result ≡ stage_fields (left fields.entry) }
{
    let name = read_name(fields.next_piece()?)?;
    let takes = next_written(&mut fields)?;
    fields.end_with(Stage { name, takes })
}

// The stage that a line says: a name, a count, frames and green, divided by single spaces.
pub fn read_stage(line: &[u8]) -> Option<Stage<'_>>
    ensures { option_map as_named result ≡ stage line.now }
{
    read_fields(Pieces::new(line, b' '))
}

// Commands, read from lines.
ghost use Rattle.notation.specs.Left.{left};
ghost use Rattle.notation.specs.Forms.{go_on, end};
ghost use Rattle.script.specs.Reading.{command, fields_after};
ghost use Rattle.std.specs.Prelude.{◌≡◌};

use crate::command::Command;
use amounts::{Written, next_written};
use notation::{Pieces, next_number};

// The command of a word, with the fields that it takes.
fn next_command(word: &[u8], fields: &mut Pieces) -> Option<Command<Written>>
    ensures { go_on result (λ c. end c (left fields.new)) ≡ fields_after word.now (left fields.old) }
{
    match word {
        b"set" => Some(Command::Set(next_written(fields)?)),
        b"open" => Some(Command::Open {
            parent: next_number(fields)?,
            child: next_number(fields)?,
            limit: next_written(fields)?,
        }),
        b"buy" => Some(Command::Buy {
            bank: next_number(fields)?,
            row: next_number(fields)?,
            amount: next_written(fields)?,
        }),
        b"back" => Some(Command::Back {
            row: next_number(fields)?,
            serial: next_number(fields)?,
        }),
        b"reclaim" => Some(Command::Reclaim {
            bank: next_number(fields)?,
        }),
        b"up" => Some(Command::Up {
            bank: next_number(fields)?,
        }),
        b"stock" => Some(Command::Stock),
        _ => None,
    }
}

// The command that a line says, given without its end.
pub fn read_command(line: &[u8]) -> Option<Command<Written>>
    ensures { result ≡ command line.now }
{
    let mut fields = Pieces::new(line, b' ');
    let word = fields.next_piece()?;
    let command = next_command(word, &mut fields)?;
    fields.end_with(command)
}

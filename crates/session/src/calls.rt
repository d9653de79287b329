// What a command comes to: the call of the ledger that it asks for, and the reply.
ghost use Rattle.ledger.specs.Posts.{lent, SameParts};
ghost use Rattle.session.specs.Courses.{course, CameTo, Turned};
ghost use Rattle.session.specs.Turns.{carried, comes_to};
ghost use Rattle.std.specs.Prelude.{◌≡◌};

use crate::session::Session;
use kinds::{EngineAmount, Kind};
use ledger::{Ledger, Refusal};
use script::{Command, Done, Reply};

// Makes the call that a command asks for.
fn ask(ledger: &mut Ledger<EngineAmount>, command: &Command<EngineAmount>) -> Result<Done, Refusal>
    ensures same { SameParts ledger.old ledger.new }
    ensures came { CameTo (comes_to command.now (lent ledger.old)) result (lent ledger.new) }
{
    let mut place = EngineAmount::empty();
    let (result, amount) = match *command {
        Command::Set(endowment) => (ledger.set_up(endowment)?, None),
        Command::Open {
            parent,
            child,
            limit,
        } => (ledger.open(parent, child, limit)?, None),
        Command::Buy { bank, row, amount } => (ledger.buy(bank, row, amount)?, None),
        Command::Back { row, serial } => (ledger.give_back(row, serial)?, None),
        Command::Reclaim { bank } => (ledger.reclaim(bank, &mut place)?, Some(place)),
        Command::Up { bank } => (ledger.hand_up(bank)?, None),
        Command::Stock => (ledger.stock(&mut place)?, Some(place)),
    };
    Ok(Done { result, amount })
}

impl Session {
    // Carries a command out; an accepted set begins.
    pub(crate) fn carry_out(&mut self, command: &Command<EngineAmount>) -> Reply
        ensures { Turned (carried (course self.old) command.now) result (course self.new) }
    {
        let mut ledger = Ledger {
            head: &mut self.head,
            banks: &mut self.banks,
            grants: &mut self.grants,
        };
        let done = ask(&mut ledger, command);
        if command.is_set() {
            self.begun = done.is_ok();
        }
        Ok(done?)
    }
}

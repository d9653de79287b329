// A command: one call of a ledger, with amounts as they are written or as they are judged.
ghost use Rattle.script.specs.Commands.{judged_command, is_set};
ghost use Rattle.std.specs.Prelude.{◌≡◌};

use amounts::Written;
use kind::AmountRefusal;
use kinds::EngineAmount;

// What a line asks for, with amounts of type `A`.
#[derive(Clone, Copy)]
pub enum Command<A> {
    // Set up with this endowment.
    Set(A),
    // Open a bank under a parent with this limit.
    Open { parent: u32, child: u32, limit: A },
    // Buy this amount from a bank into a row of grants.
    Buy { bank: u32, row: u32, amount: A },
    // Give back the grant of this row and serial.
    Back { row: u32, serial: u32 },
    // Reclaim this bank.
    Reclaim { bank: u32 },
    // Hand up this bank.
    Up { bank: u32 },
    // Ask for the stock.
    Stock,
}

impl<A> Command<A> {
    // Is this the command that sets the ledger up?
    pub fn is_set(&self) -> bool
        ensures { result ≡ is_set self.now }
    {
        matches!(self, Command::Set(_))
    }
}

impl Command<Written> {
    // The command with its amount judged, or why the amount is refused.
    pub fn judged(self) -> Result<Command<EngineAmount>, AmountRefusal>
        ensures { result ≡ judged_command self }
    {
        match self {
            Command::Set(endowment) => Ok(Command::Set(endowment.amount()?)),
            Command::Open {
                parent,
                child,
                limit,
            } => Ok(Command::Open {
                parent,
                child,
                limit: limit.amount()?,
            }),
            Command::Buy { bank, row, amount } => Ok(Command::Buy {
                bank,
                row,
                amount: amount.amount()?,
            }),
            Command::Back { row, serial } => Ok(Command::Back { row, serial }),
            Command::Reclaim { bank } => Ok(Command::Reclaim { bank }),
            Command::Up { bank } => Ok(Command::Up { bank }),
            Command::Stock => Ok(Command::Stock),
        }
    }
}

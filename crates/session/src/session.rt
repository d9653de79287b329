// A ledger of the engine's bundle, and whether it has been set up.
ghost use Rattle.session.specs.Courses.{course};
ghost use Rattle.session.specs.Turns.{first_course};
ghost use Rattle.std.specs.Prelude.{◌≡◌};

use kinds::EngineAmount;
use ledger::{Bank, Grant, Head};

// How many rows the tables have.
const BANKS: usize = 8;

const GRANTS: usize = 32;

// The tables lie here from the start, so `begun` is a mark and no Option holds them.
#[derive(Drop)]
pub struct Session {
    pub(crate) begun: bool,
    pub(crate) head: Head,
    pub(crate) banks: [Bank<EngineAmount>; BANKS],
    pub(crate) grants: [Grant<EngineAmount>; GRANTS],
}

impl Session {
    // A session whose ledger is not set up, and whose rows are free.
    pub fn new() -> Self
        ensures { course result ≡ first_course }
    {
        Session {
            begun: false,
            head: Head { last_serial: 0 },
            banks: [Bank::free(); BANKS],
            grants: [Grant::free(); GRANTS],
        }
    }
}

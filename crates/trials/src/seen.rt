// What a trial saw where it expected something else.
use ledger::Refusal;
use std::{fmt, io};

// What a call may change.
#[derive(Clone, Copy)]
pub enum Part {
    Head,
    Banks,
    Grants,
    Place,
}

#[derive(Clone, Copy)]
pub enum Seen {
    // An answer that was not expected.
    Answer(Result<u32, Refusal>),
    // A part that was left otherwise than expected.
    Otherwise(Part),
}

impl fmt::Display for Seen {
    fn fmt<W: fmt::Write>(&self, f: &mut fmt::Formatter<W>) -> fmt::Result {
        match *self {
            Seen::Answer(Ok(result)) => write!(f, "seen ok {result}"),
            Seen::Answer(Err(refusal)) => {
                let number = refusal.number();
                let place = refusal.place();
                write!(f, "seen refusal {number} at {place}")
            }
            Seen::Otherwise(Part::Head) => write!(f, "seen another head"),
            Seen::Otherwise(Part::Banks) => write!(f, "seen other banks"),
            Seen::Otherwise(Part::Grants) => write!(f, "seen other grants"),
            Seen::Otherwise(Part::Place) => write!(f, "seen another amount in the caller's place"),
        }
    }
}

// The part is as expected if `fact` holds.
pub fn expect(fact: bool, part: Part) -> Result<(), Seen> {
    if fact {
        Ok(())
    } else {
        Err(Seen::Otherwise(part))
    }
}

// One line for one trial.
pub fn tell(rt: &HostRuntime, what: &str, seen: Result<(), Seen>) -> io::Result<()> {
    match seen {
        Ok(()) => println!(rt; "{what}: ok"),
        Err(seen) => println!(rt; "{what}: {seen}"),
    }
}

// Trials of the order of the checks: a call with every fault, whose faults are mended one by one in the order that they are told.
use crate::books::Call;
use crate::rows::{bank, grant};
use crate::seen::{Seen, tell};
use crate::starts::{deep, lined_up};
use ledger::{Bank, Grant};
use std::io;

// Rows 0 to 15 are live, row 16 is one too deep, and row 17 is free.
fn opens() -> Result<(), Seen> {
    let mut books = deep()?;
    books.put_bank(16, bank(15, 0));
    books.refuses(Call::Open(18, 19, 100), 5, 18)?;
    books.refuses(Call::Open(17, 19, 100), 5, 19)?;
    books.refuses(Call::Open(17, 3, 100), 12, 17)?;
    books.refuses(Call::Open(16, 3, 100), 19, 16)?;
    books.refuses(Call::Open(15, 3, 100), 14, 15)?;
    books.refuses(Call::Open(14, 3, 100), 13, 3)?;
    books.accepts(Call::Open(14, 17, 100), 0)?;
    books.has_bank(17, bank(14, 0))
}

// Serials are spent, banks 1 and 2 are each other's parents, bank 5 is free, and grant row 0 is live.
fn buys() -> Result<(), Seen> {
    let mut books = lined_up()?;
    books.head.last_serial = 4_000_000_000;
    books.put_bank(1, bank(2, 10));
    books.refuses(Call::Buy(8, 4, 0), 5, 8)?;
    books.refuses(Call::Buy(5, 4, 0), 6, 4)?;
    books.refuses(Call::Buy(5, 0, 0), 7, 5)?;
    books.refuses(Call::Buy(5, 0, 1000), 12, 5)?;
    books.refuses(Call::Buy(1, 0, 1000), 13, 0)?;
    books.refuses(Call::Buy(1, 1, 1000), 18, 0)?;
    books.head.last_serial = 1;
    books.refuses(Call::Buy(1, 1, 1000), 19, 1)?;
    books.put_bank(1, bank(0, 10));
    books.refuses(Call::Buy(1, 1, 1000), 15, 1)?;
    books.accepts(Call::Buy(1, 1, 90), 2)?;
    books.has_bank(0, bank(0, 100))?;
    books.has_bank(1, bank(0, 100))?;
    books.has_bank(2, bank(1, 10))?;
    books.has_grant(1, grant(1, 2, 90))
}

// The bank of the grant is lost, and its use is short.
fn gives_back() -> Result<(), Seen> {
    let mut books = lined_up()?;
    books.put_bank(3, bank(5, 9));
    books.put_bank(0, bank(0, 9));
    books.refuses(Call::Back(4, 9), 6, 4)?;
    books.refuses(Call::Back(0, 9), 16, 0)?;
    books.refuses(Call::Back(0, 1), 19, 3)?;
    books.put_bank(3, bank(2, 10));
    books.refuses(Call::Back(0, 1), 19, 0)?;
    books.put_bank(0, bank(0, 10));
    books.accepts(Call::Back(0, 1), 0)
}

// Row 0 is free, so banks 1 to 3 are lost; bank 6 has a grant and is free; and when row 0 is live its use is short.
fn closes() -> Result<(), Seen> {
    let mut books = lined_up()?;
    books.put_bank(0, Bank::free());
    books.put_grant(1, grant(6, 7, 5));
    books.refuses(Call::Reclaim(8), 5, 8)?;
    books.refuses(Call::HandUp(8), 5, 8)?;
    books.refuses(Call::Reclaim(0), 17, 0)?;
    books.refuses(Call::HandUp(0), 17, 0)?;
    books.refuses(Call::Reclaim(5), 12, 5)?;
    books.refuses(Call::HandUp(5), 12, 5)?;
    books.refuses(Call::Reclaim(3), 19, 1)?;
    books.refuses(Call::HandUp(3), 19, 1)?;
    books.put_bank(0, bank(0, 9));
    books.refuses(Call::Reclaim(3), 19, 6)?;
    books.refuses(Call::HandUp(3), 19, 6)?;
    books.put_grant(1, Grant::free());
    books.refuses(Call::Reclaim(3), 19, 0)?;
    books.put_bank(0, bank(0, 10));
    books.accepts(Call::Reclaim(3), 1)?;
    books.has_place(10)
}

pub fn run(rt: &HostRuntime) -> io::Result<()> {
    tell(rt, "open checks 5, 5, 12, 19, 14 and 13 in turn", opens())?;
    tell(
        rt,
        "buy checks 5, 6, 7, 12, 13, 18, 19 and 15 in turn",
        buys(),
    )?;
    tell(rt, "back checks 6, 16 and 19 in turn", gives_back())?;
    tell(
        rt,
        "reclaim and hand up check 5, 17, 12 and 19 in turn",
        closes(),
    )
}

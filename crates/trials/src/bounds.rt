// Trials at the bounds of a ledger: its rows, its depth, its serials.
use crate::books::{Books, Call};
use crate::rows::{bank, count, grant};
use crate::seen::{Seen, tell};
use crate::starts::{deep, fresh};
use kinds::Kind;
use ledger::{Bank, Grant, Head};
use std::io;

// Set-up frees every row and opens the root.
fn set_up() -> Result<(), Seen> {
    let books = fresh()?;
    let mut expected = Books {
        head: Head { last_serial: 0 },
        banks: [Bank::free(); 8],
        grants: [Grant::free(); 4],
        place: count(77),
    };
    expected.put_bank(0, bank(0, 0));
    books.is_as(&expected)
}

// A chain has at most 16 rows.
fn depth() -> Result<(), Seen> {
    let mut books = deep()?;
    books.refuses(Call::Open(15, 16, 100), 14, 15)?;
    books.accepts(Call::Buy(15, 0, 5), 1)?;
    books.has_bank(0, bank(0, 5))?;
    books.has_bank(15, bank(14, 5))?;
    books.accepts(Call::Open(14, 16, 100), 0)
}

// Serials end at 4,000,000,000.
fn serials() -> Result<(), Seen> {
    let mut books = fresh()?;
    books.head.last_serial = 3_999_999_999;
    books.accepts(Call::Buy(0, 0, 1), 4_000_000_000)?;
    books.has_grant(0, grant(0, 4_000_000_000, 1))?;
    books.refuses(Call::Buy(0, 1, 1), 18, 0)?;
    books.accepts(Call::Back(0, 4_000_000_000), 0)?;
    books.refuses(Call::Buy(0, 0, 1), 18, 0)?;
    books.head.last_serial = 4_294_967_295;
    books.refuses(Call::Buy(0, 0, 1), 18, 0)
}

impl<const B: usize, const G: usize> Books<B, G> {
    // Every call is refused with 4, whatever else is wrong with it.
    fn misfits(&mut self, place: u32) -> Result<(), Seen> {
        self.refuses(Call::SetUp(100), 4, place)?;
        self.refuses(Call::Open(99, 99, 100), 4, place)?;
        self.refuses(Call::Buy(99, 9999, 0), 4, place)?;
        self.refuses(Call::Back(9999, 8), 4, place)?;
        self.refuses(Call::Reclaim(0), 4, place)?;
        self.refuses(Call::HandUp(99), 4, place)?;
        self.refuses(Call::Stock, 4, place)
    }

    // A ledger is set up, and its root sells into the last row and gets back.
    fn fits(&mut self, last_row: u32) -> Result<(), Seen> {
        self.accepts(Call::SetUp(100), 0)?;
        self.accepts(Call::Buy(0, last_row, 60), 1)?;
        self.accepts(Call::Stock, 0)?;
        self.has_place(40)?;
        self.accepts(Call::Back(last_row, 1), 0)
    }
}

pub fn run(rt: &HostRuntime) -> io::Result<()> {
    tell(rt, "set-up frees every row and opens the root", set_up())?;
    tell(rt, "fifteen banks one under another, then 14", depth())?;
    tell(rt, "the last serial, then 18", serials())?;
    tell(rt, "1 bank and 1 grant", Books::<1, 1>::scribbled().fits(0))?;
    tell(
        rt,
        "64 banks and 1,024 grants",
        Books::<64, 1024>::scribbled().fits(1023),
    )?;
    tell(rt, "0 banks", Books::<0, 4>::scribbled().misfits(0))?;
    tell(rt, "65 banks", Books::<65, 4>::scribbled().misfits(0))?;
    tell(rt, "0 grants", Books::<8, 0>::scribbled().misfits(1))?;
    tell(rt, "1,025 grants", Books::<8, 1025>::scribbled().misfits(1))?;
    tell(
        rt,
        "0 banks and 0 grants",
        Books::<0, 0>::scribbled().misfits(0),
    )?;
    tell(
        rt,
        "65 banks and 1,025 grants",
        Books::<65, 1025>::scribbled().misfits(0),
    )
}

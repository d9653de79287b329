// Trials over tables that no calls have made: rows written by hand.
use crate::books::Call;
use crate::rows::{bank, grant};
use crate::seen::{Seen, tell};
use crate::starts::{deep, fresh, lined_up};
use ledger::{Bank, Grant};
use std::io;

// Banks 1 and 2 are each other's parents, and then bank 1 is its own. Other chains are whole.
fn cycle() -> Result<(), Seen> {
    let mut books = lined_up()?;
    books.put_bank(1, bank(2, 10));
    books.refuses(Call::Open(1, 4, 100), 19, 1)?;
    books.refuses(Call::Open(3, 4, 100), 19, 3)?;
    books.refuses(Call::Buy(2, 1, 5), 19, 2)?;
    books.refuses(Call::Buy(3, 1, 5), 19, 3)?;
    books.refuses(Call::Back(0, 1), 19, 3)?;
    books.refuses(Call::Reclaim(3), 19, 1)?;
    books.refuses(Call::HandUp(2), 19, 1)?;
    books.put_bank(1, bank(1, 10));
    books.refuses(Call::Open(1, 4, 100), 19, 1)?;
    books.refuses(Call::Buy(2, 1, 5), 19, 2)?;
    books.accepts(Call::Open(0, 4, 100), 0)?;
    books.accepts(Call::Buy(4, 1, 5), 2)?;
    books.accepts(Call::Stock, 0)?;
    books.has_place(85)
}

// The parent of bank 1 is not in the table, or is free.
fn no_parent() -> Result<(), Seen> {
    let mut books = lined_up()?;
    books.put_bank(1, bank(8, 10));
    books.refuses(Call::Open(1, 4, 100), 19, 1)?;
    books.refuses(Call::Open(2, 4, 100), 19, 2)?;
    books.refuses(Call::Buy(1, 1, 5), 19, 1)?;
    books.refuses(Call::Back(0, 1), 19, 3)?;
    books.refuses(Call::Reclaim(3), 19, 1)?;
    books.refuses(Call::HandUp(1), 19, 1)?;
    books.put_bank(1, bank(4_294_967_295, 10));
    books.refuses(Call::Buy(3, 1, 5), 19, 3)?;
    books.put_bank(1, bank(5, 10));
    books.refuses(Call::Open(3, 4, 100), 19, 3)?;
    books.refuses(Call::Buy(1, 1, 5), 19, 1)
}

fn no_root() -> Result<(), Seen> {
    let mut books = lined_up()?;
    books.put_bank(0, Bank::free());
    books.put_grant(1, grant(0, 7, 5));
    books.refuses(Call::Open(1, 4, 100), 19, 1)?;
    books.refuses(Call::Open(0, 4, 100), 12, 0)?;
    books.refuses(Call::Buy(3, 2, 5), 19, 3)?;
    books.refuses(Call::Buy(0, 2, 5), 12, 0)?;
    books.refuses(Call::Back(0, 1), 19, 3)?;
    books.refuses(Call::Back(1, 7), 19, 0)?;
    books.refuses(Call::Reclaim(2), 19, 1)?;
    books.refuses(Call::HandUp(2), 19, 1)?;
    books.refuses(Call::Stock, 19, 0)
}

// The chain of row 0 is row 0, whatever stands as its parent, and hand up leaves that as it is.
fn root_with_parent() -> Result<(), Seen> {
    let mut books = lined_up()?;
    books.put_bank(0, bank(3, 10));
    books.accepts(Call::Buy(3, 1, 5), 2)?;
    books.accepts(Call::HandUp(3), 2)?;
    books.has_bank(0, bank(3, 15))?;
    books.has_bank(3, Bank::free())?;
    books.has_grant(0, grant(2, 1, 10))?;
    books.has_grant(1, grant(2, 2, 5))
}

fn too_deep() -> Result<(), Seen> {
    let mut books = deep()?;
    books.put_bank(16, bank(15, 0));
    books.put_grant(1, grant(16, 7, 0));
    books.refuses(Call::Open(16, 17, 100), 19, 16)?;
    books.refuses(Call::Buy(16, 0, 5), 19, 16)?;
    books.refuses(Call::Back(1, 7), 19, 16)?;
    books.refuses(Call::Reclaim(1), 19, 16)?;
    books.refuses(Call::HandUp(3), 19, 16)?;
    books.refuses(Call::Open(15, 17, 100), 14, 15)?;
    books.accepts(Call::Buy(15, 0, 5), 1)
}

// The nearest bank that is short is named.
fn short_of_grant() -> Result<(), Seen> {
    let mut books = lined_up()?;
    books.put_bank(0, bank(0, 8));
    books.put_bank(1, bank(0, 9));
    books.refuses(Call::Back(0, 1), 19, 1)?;
    books.put_bank(1, bank(0, 10));
    books.refuses(Call::Back(0, 1), 19, 0)?;
    books.put_bank(3, bank(2, 0));
    books.refuses(Call::Back(0, 1), 19, 3)?;
    books.put_bank(3, bank(2, 10));
    books.put_bank(0, bank(0, 10));
    books.accepts(Call::Back(0, 1), 0)?;
    books.has_bank(0, bank(0, 0))?;
    books.has_bank(3, bank(2, 0))?;
    books.has_grant(0, Grant::free())
}

// Of two such grants the bank of the lower row is named. Open, buy and stock do not look at them.
fn stray_grants() -> Result<(), Seen> {
    let mut books = lined_up()?;
    books.put_grant(2, grant(6, 8, 5));
    books.put_grant(3, grant(5, 7, 5));
    books.refuses(Call::Reclaim(3), 19, 6)?;
    books.refuses(Call::HandUp(3), 19, 6)?;
    books.refuses(Call::Back(2, 8), 19, 6)?;
    books.put_grant(2, grant(8, 8, 5));
    books.refuses(Call::Reclaim(1), 19, 8)?;
    books.refuses(Call::HandUp(1), 19, 8)?;
    books.refuses(Call::Back(2, 8), 19, 8)?;
    books.accepts(Call::Open(3, 4, 100), 0)?;
    books.accepts(Call::Buy(4, 1, 5), 2)?;
    books.accepts(Call::Stock, 0)?;
    books.has_place(85)
}

// Banks 4 and 5 are lost, and grant row 1 has a bank that is free.
fn lost_banks() -> Result<(), Seen> {
    let mut books = lined_up()?;
    books.put_grant(1, grant(7, 7, 5));
    books.put_bank(5, bank(6, 0));
    books.put_bank(4, bank(5, 0));
    books.refuses(Call::Reclaim(3), 19, 4)?;
    books.refuses(Call::HandUp(3), 19, 4)?;
    books.put_bank(4, Bank::free());
    books.refuses(Call::Reclaim(3), 19, 5)?;
    books.refuses(Call::HandUp(3), 19, 5)
}

// The nearest bank that is short is named. Hand up does not look at uses.
fn short_of_reclaimed() -> Result<(), Seen> {
    let mut books = lined_up()?;
    books.put_bank(0, bank(0, 8));
    books.put_bank(1, bank(0, 9));
    books.refuses(Call::Reclaim(3), 19, 1)?;
    books.put_bank(1, bank(0, 10));
    books.refuses(Call::Reclaim(3), 19, 0)?;
    books.accepts(Call::HandUp(3), 1)?;
    books.has_grant(0, grant(2, 1, 10))?;
    books.refuses(Call::Reclaim(2), 19, 0)?;
    books.put_bank(0, bank(0, 10));
    books.accepts(Call::Reclaim(2), 1)?;
    books.has_place(10)?;
    books.has_bank(0, bank(0, 0))?;
    books.has_bank(1, bank(0, 0))
}

// Reclaim goes by the use of the bank, and not by its grants.
fn use_apart_from_grants() -> Result<(), Seen> {
    let mut books = lined_up()?;
    books.put_bank(1, bank(0, 3));
    books.accepts(Call::Reclaim(1), 1)?;
    books.has_place(3)?;
    books.has_bank(0, bank(0, 7))?;
    books.has_bank(1, Bank::free())?;
    books.has_bank(3, Bank::free())?;
    books.has_grant(0, Grant::free())
}

fn no_stock() -> Result<(), Seen> {
    let mut books = fresh()?;
    books.put_bank(0, bank(0, 101));
    books.refuses(Call::Stock, 19, 0)?;
    books.put_bank(0, bank(0, 100));
    books.accepts(Call::Stock, 0)?;
    books.has_place(0)?;
    books.put_bank(0, bank(0, 40));
    books.accepts(Call::Stock, 0)?;
    books.has_place(60)?;
    books.put_bank(0, Bank::free());
    books.refuses(Call::Stock, 19, 0)
}

// It is given back by serial 0; a free row, whose serial is 0 too, is not.
fn serial_zero() -> Result<(), Seen> {
    let mut books = fresh()?;
    books.put_bank(0, bank(0, 5));
    books.put_grant(1, grant(0, 0, 5));
    books.refuses(Call::Back(2, 0), 16, 2)?;
    books.refuses(Call::Back(1, 1), 16, 1)?;
    books.accepts(Call::Back(1, 0), 0)?;
    books.has_grant(1, Grant::free())?;
    books.has_bank(0, bank(0, 0))
}

pub fn run(rt: &HostRuntime) -> io::Result<()> {
    tell(rt, "a cycle of parents", cycle())?;
    tell(rt, "a parent beyond the table, or free", no_parent())?;
    tell(rt, "row 0 free", no_root())?;
    tell(rt, "row 0 with a parent", root_with_parent())?;
    tell(rt, "a chain of 17 rows", too_deep())?;
    tell(
        rt,
        "a use that does not hold what is given back",
        short_of_grant(),
    )?;
    tell(rt, "grants of banks that are not there", stray_grants())?;
    tell(rt, "lost banks before lost grants", lost_banks())?;
    tell(
        rt,
        "a use above that does not hold what is reclaimed",
        short_of_reclaimed(),
    )?;
    tell(
        rt,
        "a use that is not what the grants make",
        use_apart_from_grants(),
    )?;
    tell(
        rt,
        "stock of a root over its limit, and of none",
        no_stock(),
    )?;
    tell(rt, "a live grant with serial 0", serial_zero())
}

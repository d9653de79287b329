// A day of a junction on one ledger: north and south open banks, buy vehicles, frames and green, and close at night.
#![tactic(auto)]

mod desk;
mod words;

use desk::Desk;
use ledger::{Bank, Grant, Head, Ledger};

// Bank 0 is the junction's; north and south stand under it, and the left turn under north.
const JUNCTION: u32 = 0;

const NORTH: u32 = 1;

const SOUTH: u32 = 2;

const LEFT_TURN: u32 = 3;

// At night a bus takes the row that north has left, and stands under south.
const NIGHT_BUS: u32 = 1;

// A bank that nobody opens, and row numbers that the tables do not have.
const NOBODY: u32 = 4;

const NO_BANK: u32 = 8;

const NO_GRANT: u32 = 32;

// The junction gets its endowment, and the branches open.
fn open_branches(desk: &mut Desk) -> anyhow::Result<()> {
    desk.set_up("100 0..8 0..60")?;
    desk.stock()?;
    desk.open(JUNCTION, NORTH, "40 0..4 0..30")?;
    desk.open(JUNCTION, SOUTH, "70 2..8 10..60")?;
    desk.open(NORTH, LEFT_TURN, "50 0..4 0..30")?;
    desk.open(NORTH, SOUTH, "10 - -")?;
    desk.open(NOBODY, 5, "10 - -")?;
    desk.open(JUNCTION, NO_BANK, "10 - -")
}

// Vehicles past a limit, and seconds that another stage holds, are not sold.
fn rush_hour(desk: &mut Desk) -> anyhow::Result<()> {
    desk.buy(NORTH, 0, "30 0..2 0..10")?;
    desk.buy(NORTH, 1, "20 - -")?;
    desk.buy(LEFT_TURN, 1, "20 - -")?;
    desk.buy(LEFT_TURN, 1, "5 2..3 10..20")?;
    desk.buy(NORTH, 2, "1 3..4 9..12")?;
    desk.buy(SOUTH, 2, "10 4..6 15..25")?;
    desk.buy(SOUTH, 2, "25 6..8 40..60")?;
    desk.buy(SOUTH, 3, "42 - -")?;
    desk.stock()
}

// Purchases that cannot be meant.
fn slips(desk: &mut Desk) -> anyhow::Result<()> {
    desk.buy(SOUTH, 2, "1 - -")?;
    desk.buy(NOBODY, 3, "1 - -")?;
    desk.buy(NORTH, 3, "0 - -")?;
    desk.buy(NORTH, NO_GRANT, "1 - -")
}

// North gives its green back, once, and buys some of it anew.
fn noon(desk: &mut Desk) -> anyhow::Result<()> {
    desk.give_back(0, 1)?;
    desk.give_back(0, 1)?;
    desk.give_back(2, 1)?;
    desk.buy(NORTH, 0, "10 0..1 0..5")?;
    desk.stock()
}

// North hands its grant and the left turn up to the junction. Its limit then no longer counts.
fn close_north(desk: &mut Desk) -> anyhow::Result<()> {
    desk.hand_up(JUNCTION)?;
    desk.reclaim(JUNCTION)?;
    desk.hand_up(NORTH)?;
    desk.hand_up(NORTH)?;
    desk.buy(LEFT_TURN, 3, "30 3..4 20..30")?;
    desk.stock()?;
    desk.reclaim(LEFT_TURN)?;
    desk.give_back(1, 2)?;
    desk.stock()
}

// South is reclaimed with the night bus under it, and the grant that north handed up comes back last.
fn close_south(desk: &mut Desk) -> anyhow::Result<()> {
    desk.open(SOUTH, NIGHT_BUS, "10 4..5 30..40")?;
    desk.buy(NIGHT_BUS, 1, "4 4..5 30..35")?;
    desk.reclaim(SOUTH)?;
    desk.buy(NIGHT_BUS, 1, "1 - -")?;
    desk.stock()?;
    desk.give_back(0, 4)?;
    desk.stock()
}

fn run(rt: &HostRuntime) -> anyhow::Result<()> {
    let mut head = Head { last_serial: 0 };
    let mut banks = [Bank::free(); 8];
    let mut grants = [Grant::free(); 32];
    let ledger = Ledger {
        head: &mut head,
        banks: &mut banks,
        grants: &mut grants,
    };
    let mut desk = Desk::new(rt, ledger);
    open_branches(&mut desk)?;
    rush_hour(&mut desk)?;
    slips(&mut desk)?;
    noon(&mut desk)?;
    close_north(&mut desk)?;
    close_south(&mut desk)
}

fn main(rt: HostRuntime) -> anyhow::Result<()> {
    run(&rt)
}

// The records that the caller keeps and lends. A mark tells a live row from a free one: the fields lie in the caller's memory either way.

// The head of a ledger. It is never copied.
#[derive(Drop, PartialEq, Eq)]
pub struct Head {
    pub last_serial: u32,
}

// A row of the table of banks. Row 0 is the root; a row whose mark is off is free.
#[derive(Clone, Copy, PartialEq, Eq)]
pub struct Bank<K> {
    pub live: bool,
    pub parent: u32,
    pub limit: K,
    pub used: K,
}

// A row of the table of grants: an amount that a bank has sold and not got back.
#[derive(Clone, Copy, PartialEq, Eq)]
pub struct Grant<K> {
    pub live: bool,
    pub bank: u32,
    pub serial: u32,
    pub amount: K,
}

// A ledger, as its owner lends it.
use tables::{Bank, Grant, Head};

// The head and the two tables that the owner keeps. A call answers, and leaves all of them, as its rule says, whatever they hold.
#[derive(Drop)]
pub struct Ledger<'a, K> {
    pub head: &'a mut Head,
    pub banks: &'a mut [Bank<K>],
    pub grants: &'a mut [Grant<K>],
}

// The same, lent to be read only.
#[derive(Clone, Copy)]
pub struct View<'a, K> {
    pub head: &'a Head,
    pub banks: &'a [Bank<K>],
    pub grants: &'a [Grant<K>],
}

// A pair of amounts of any two kinds; `algebra` has its answers as a kind.
pub mod algebra;

#[derive(Clone, Copy, PartialEq, Eq)]
pub struct Bundle<A, B> {
    pub first: A,
    pub second: B,
}

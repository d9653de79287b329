// Books that trials start from. All limits are 100.
use crate::books::{Books, Call};
use crate::seen::Seen;

// A ledger just set up.
pub fn fresh() -> Result<Books<8, 4>, Seen> {
    let mut books = Books::scribbled();
    books.accepts(Call::SetUp(100), 0)?;
    Ok(books)
}

// Bank 1 under 0, bank 2 under 1 and bank 3 under 2. Grant row 0 has 10 from bank 3, with serial 1.
pub fn lined_up() -> Result<Books<8, 4>, Seen> {
    let mut books = fresh()?;
    books.accepts(Call::Open(0, 1, 100), 0)?;
    books.accepts(Call::Open(1, 2, 100), 0)?;
    books.accepts(Call::Open(2, 3, 100), 0)?;
    books.accepts(Call::Buy(3, 0, 10), 1)?;
    Ok(books)
}

// Fifteen banks one under another below the root.
pub fn deep() -> Result<Books<18, 4>, Seen> {
    let mut books = Books::scribbled();
    books.accepts(Call::SetUp(100), 0)?;
    for parent in 0..15 {
        books.accepts(Call::Open(parent, parent + 1, 100), 0)?;
    }
    Ok(books)
}

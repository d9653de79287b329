// A count made from a number, and read back.
ghost use Rattle.count.specs.Counts.{make_count};
ghost use Rattle.std.specs.Prelude.{◌≡◌, IfOk};

use crate::count::{Count, TOP};
use kind::AmountRefusal;

impl TryFrom<u32> for Count {
    type Error = AmountRefusal;

    ghost try_from_gives = { λ value r. r ≡ make_count value };

    // The count of `value`, refused above `TOP`.
    fn try_from(value: u32) -> Result<Count, AmountRefusal>
        ensures answer { result ≡ make_count value }
        ensures contents { IfOk result (λ c. c.value ≡ value) }
    {
        if value <= TOP {
            Ok(Count { value })
        } else {
            Err(AmountRefusal::CountTooLarge)
        }
    }
}

impl Count {
    // The number.
    pub fn value(&self) -> u32
        ensures { result ≡ self.now.value }
    {
        self.value
    }
}

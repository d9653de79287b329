// Why a number or a run is refused as an amount.
ghost use Rattle.kind.specs.Refusals.{amount_refusal};
ghost use Rattle.std.specs.Prelude.{◌≡◌};

#[derive(Clone, Copy, Debug, PartialEq, Eq)]
pub enum AmountRefusal {
    // A count above its top.
    CountTooLarge,
    // A run that is empty, turned round or beyond the end.
    BadRun,
}

impl AmountRefusal {
    // The number by which the refusal is known. It is fixed by those who read it, so it is no discriminant.
    pub fn number(self) -> u32
        ensures { result ≡ (amount_refusal self).number }
    {
        match self {
            AmountRefusal::CountTooLarge => 2,
            AmountRefusal::BadRun => 3,
        }
    }

    // The place that the refusal names.
    pub fn place(self) -> u32
        ensures { result ≡ (amount_refusal self).place }
    {
        match self {
            AmountRefusal::CountTooLarge => 0,
            AmountRefusal::BadRun => 0,
        }
    }
}

// A theorem on the definitions: the function stands for what its contract states.
ghost use Rattle.amounts.specs.Laws.{AmountsPrintAsRead};

// An amount that was read is written as it was, but for leading zeros.
pub fn amounts_print_as_read()
    ensures { AmountsPrintAsRead }
{}

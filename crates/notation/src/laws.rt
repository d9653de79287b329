// Theorems on the definitions: each function stands for what its contract states.
ghost use Rattle.notation.specs.Examples.{LinesAsMeant, NumbersAsMeant, SpansAsMeant, TextsAsMeant};
ghost use Rattle.notation.specs.Laws.{CutsExactly, CutsOneWay, NumbersReadBack, SpansReadBack};

// Numbers, spans, lines and texts at their limits are as they are meant.
pub fn does_as_meant()
    ensures numbers { NumbersAsMeant }
    ensures spans { SpansAsMeant }
    ensures lines { LinesAsMeant }
    ensures texts { TextsAsMeant }
{}

// The pieces lack the mark and give the bytes again, and no others do.
pub fn cuts_exactly()
    ensures exactly { CutsExactly }
    ensures one_way { CutsOneWay }
{}

// What is written of a number or a span is read as it.
pub fn spans_read_back()
    ensures numbers { NumbersReadBack }
    ensures spans { SpansReadBack }
{}

// Theorems on the definitions: each function stands for what its contract states.
ghost use Rattle.sets.specs.Laws.{BytesKeepSets, BytesDiffer, RunsKeepSets, RunsDiffer};

// Each set has its bytes, and only those.
pub fn bytes_are_sets()
    ensures keep { BytesKeepSets }
    ensures differ { BytesDiffer }
{}

// Each set has its runs, and only those.
pub fn runs_are_sets()
    ensures keep { RunsKeepSets }
    ensures differ { RunsDiffer }
{}

ghost use Rattle.std.specs.Prelude.{ℕ, List};
ghost use Rattle.source_reader.specs.Laws.{SourceLaws};

/// What holds of every text: it stands for just one program, or has just one fault.
pub fn source_laws()
    ensures { (text : List ℕ) → SourceLaws text }
{}

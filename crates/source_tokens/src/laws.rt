ghost use Rattle.std.specs.Prelude.{ℕ, List};
ghost use Rattle.source_tokens.specs.Laws.{HasTokens};

/// What holds of every text: it has tokens, up to its end or its first fault.
pub fn token_laws()
    ensures { (text : List ℕ) → HasTokens text }
{}

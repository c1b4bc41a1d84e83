ghost use Rattle.std.specs.Prelude.{List};
ghost use Rattle.source_tokens.specs.declared.token.Token.{Token};
ghost use Rattle.source_grammar.specs.Laws.{IsDecided};

/// What holds of every list of tokens: they stand for a program, or leave the grammar at a place.
pub fn grammar_laws()
    ensures { (ts : List Token) → IsDecided ts }
{}

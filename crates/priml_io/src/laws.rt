ghost use Rattle.priml_io.specs.Laws.{InputsAreCut, WordsAreRead};

/// All words are a command or have a fault.
pub fn all_words_are_read()
    ensures { WordsAreRead }
{}

/// Every input is cut into sections or has a section fault.
pub fn every_input_is_cut()
    ensures { InputsAreCut }
{}

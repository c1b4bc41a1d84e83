ghost use Rattle.std.specs.Prelude.{◌≡◌, ◌+◌, ◌-◌, ◌^◌, ◌<◌, ◌∷◌, [], length, map, min, string_bytes, Result, MatchOption, IfOk, IfErr, MatchBool};
ghost use Rattle.priml_io.specs.declared.words.Name.{Name};
ghost use Rattle.priml_io.specs.Words.{steps, cores, workers, quantum, samples, word_of, bounds, name_of, numbers_of, word_at, IsDigit, IsDigits, value_of, IsNumber, HasFault, AreNumbers, HasFirstFault, ReadsWords};

/// A right command line.
#[derive(Clone, Copy, Debug, PartialEq, Eq)]
pub enum Command {
    /// Reads and checks the program.
    Check,
    /// The step limit.
    Serial(u64),
    /// The number of cores, and the step limit.
    Report(u32, u64),
    /// The numbers of workers, of steps in a quantum and of cores, and the step limit.
    Run(u32, u32, u32, u64),
    /// The numbers of workers and of steps in a quantum, and the step limit.
    Trace(u32, u32, u64),
    /// The step limit.
    Graph(u64),
    /// The number of cores, and the step limit.
    Plan(u32, u64),
    /// The number of cores, and the step limit.
    Judge(u32, u64),
    /// The sample, the numbers of workers, of steps in a quantum and of cores, and the step limit.
    Sample(u32, u32, u32, u32, u64),
}

/// Why words are no command line. Numbers are counted from 1.
#[derive(Clone, Copy, Debug, PartialEq, Eq)]
pub enum WordsFault {
    /// There are no words.
    NoCommand,
    /// The first word is no command.
    UnknownCommand,
    /// The command takes another count of numbers.
    WrongCount,
    /// This number is empty or has a byte that is no digit.
    BadNumber(u64),
    /// This number is less than 1 or greater than its command allows.
    OutOfRange(u64),
}

/// The commands by their words alone.
#[derive(Clone, Copy)]
enum Name {
    Check,
    Serial,
    Report,
    Run,
    Trace,
    Graph,
    Plan,
    Judge,
    Sample,
}

const STEPS: u64 = 100_000;

const CORES: u64 = 1_024;

const WORKERS: u64 = 16;

const QUANTUM: u64 = 1_000;

const SAMPLES: u64 = 5_000;

/// The command of these words, which are those after the program's own name. Of its numbers the first that is bad
/// or out of range decides. Leading zeros are allowed. The words have no other result.
pub fn read_words(words: &[String]) -> Result<Command, WordsFault>
    ensures reads { ReadsWords (map string_bytes words.now) result }
    ensures only { (other : Result Command WordsFault) → ReadsWords (map string_bytes words.now) other → other ≡ result }
{
    read_line(words)
}

// The command of these words.
fn read_line(words: &[String]) -> Result<Command, WordsFault>
    ensures { ReadsWords (map string_bytes words.now) result }
{
    if words.is_empty() {
        return Err(WordsFault::NoCommand);
    }
    let Some(name) = find_name(text_at(words, 0)) else {
        return Err(WordsFault::UnknownCommand);
    };
    if words.len() != 1 + count_of(name) {
        return Err(WordsFault::WrongCount);
    }
    read_command(name, words)
}

fn text_at(words: &[String], k: usize) -> &[u8]
    requires { k < length words.now }
    ensures { result.now ≡ word_at (map string_bytes words.now) k }
{
    words[k].as_bytes()
}

fn find_name(word: &[u8]) -> Option<Name>
    ensures { MatchOption result ((n : Name) → ¬ (word.now ≡ word_of n)) (λ n. word.now ≡ word_of n) }
{
    match word {
        b"check" => Some(Name::Check),
        b"serial" => Some(Name::Serial),
        b"report" => Some(Name::Report),
        b"run" => Some(Name::Run),
        b"trace" => Some(Name::Trace),
        b"graph" => Some(Name::Graph),
        b"plan" => Some(Name::Plan),
        b"judge" => Some(Name::Judge),
        b"sample" => Some(Name::Sample),
        _ => None,
    }
}

fn count_of(name: Name) -> usize
    ensures { result ≡ length (bounds name) }
{
    match name {
        Name::Check => 0,
        Name::Serial | Name::Graph => 1,
        Name::Report | Name::Plan | Name::Judge => 2,
        Name::Trace => 3,
        Name::Run => 4,
        Name::Sample => 5,
    }
}

fn read_command(name: Name, words: &[String]) -> Result<Command, WordsFault>
    requires { length words.now ≡ 1 + length (bounds name) }
    ensures named { IfOk result (λ c. name_of c ≡ name) }
    ensures numbers { IfOk result (λ c. AreNumbers 1 (map string_bytes words.now) (bounds name) (numbers_of c)) }
    ensures fault { IfErr result (HasFirstFault 1 (map string_bytes words.now) (bounds name)) }
{
    match name {
        Name::Check => Ok(Command::Check),
        Name::Serial => Ok(Command::Serial(number(words, 1, STEPS)?)),
        Name::Report => {
            let (cores, steps) = cores_and_steps(words)?;
            Ok(Command::Report(cores, steps))
        }
        Name::Run => read_run(words),
        Name::Trace => read_trace(words),
        Name::Graph => Ok(Command::Graph(number(words, 1, STEPS)?)),
        Name::Plan => {
            let (cores, steps) = cores_and_steps(words)?;
            Ok(Command::Plan(cores, steps))
        }
        Name::Judge => {
            let (cores, steps) = cores_and_steps(words)?;
            Ok(Command::Judge(cores, steps))
        }
        Name::Sample => read_sample(words),
    }
}

fn cores_and_steps(words: &[String]) -> Result<(u32, u64), WordsFault>
    requires { length words.now ≡ 3 }
    ensures numbers { IfOk result (λ t. AreNumbers 1 (map string_bytes words.now) (cores ∷ steps ∷ []) (t.0 ∷ t.1 ∷ [])) }
    ensures fault { IfErr result (HasFirstFault 1 (map string_bytes words.now) (cores ∷ steps ∷ [])) }
{
    let cores = number(words, 1, CORES)?;
    let steps = number(words, 2, STEPS)?;
    Ok((cores as u32, steps))
}

fn read_trace(words: &[String]) -> Result<Command, WordsFault>
    requires { length words.now ≡ 4 }
    ensures named { IfOk result (λ c. name_of c ≡ Name.Trace) }
    ensures numbers { IfOk result (λ c. AreNumbers 1 (map string_bytes words.now) (workers ∷ quantum ∷ steps ∷ []) (numbers_of c)) }
    ensures fault { IfErr result (HasFirstFault 1 (map string_bytes words.now) (workers ∷ quantum ∷ steps ∷ [])) }
{
    let workers = number(words, 1, WORKERS)?;
    let quantum = number(words, 2, QUANTUM)?;
    let steps = number(words, 3, STEPS)?;
    Ok(Command::Trace(workers as u32, quantum as u32, steps))
}

fn read_run(words: &[String]) -> Result<Command, WordsFault>
    requires { length words.now ≡ 5 }
    ensures named { IfOk result (λ c. name_of c ≡ Name.Run) }
    ensures numbers { IfOk result (λ c. AreNumbers 1 (map string_bytes words.now) (workers ∷ quantum ∷ cores ∷ steps ∷ []) (numbers_of c)) }
    ensures fault { IfErr result (HasFirstFault 1 (map string_bytes words.now) (workers ∷ quantum ∷ cores ∷ steps ∷ [])) }
{
    let workers = number(words, 1, WORKERS)?;
    let quantum = number(words, 2, QUANTUM)?;
    let cores = number(words, 3, CORES)?;
    let steps = number(words, 4, STEPS)?;
    Ok(Command::Run(workers as u32, quantum as u32, cores as u32, steps))
}

fn read_sample(words: &[String]) -> Result<Command, WordsFault>
    requires { length words.now ≡ 6 }
    ensures named { IfOk result (λ c. name_of c ≡ Name.Sample) }
    ensures numbers { IfOk result (λ c. AreNumbers 1 (map string_bytes words.now) (samples ∷ workers ∷ quantum ∷ cores ∷ steps ∷ []) (numbers_of c)) }
    ensures fault { IfErr result (HasFirstFault 1 (map string_bytes words.now) (samples ∷ workers ∷ quantum ∷ cores ∷ steps ∷ [])) }
{
    let sample = number(words, 1, SAMPLES)?;
    let workers = number(words, 2, WORKERS)?;
    let quantum = number(words, 3, QUANTUM)?;
    let cores = number(words, 4, CORES)?;
    let steps = number(words, 5, STEPS)?;
    Ok(Command::Sample(
        sample as u32,
        workers as u32,
        quantum as u32,
        cores as u32,
        steps,
    ))
}

fn number(words: &[String], k: usize, most: u64) -> Result<u64, WordsFault>
    requires some { k < length words.now }
    requires small { most < 2 ^ 64 - 1 }
    ensures ok { IfOk result (IsNumber (word_at (map string_bytes words.now) k) most) }
    ensures fault { IfErr result (HasFault (word_at (map string_bytes words.now) k) most k) }
{
    let word = text_at(words, k);
    if !is_digits(word) {
        return Err(WordsFault::BadNumber(k as u64));
    }
    let value = capped_value(word);
    if value < 1 || most < value {
        return Err(WordsFault::OutOfRange(k as u64));
    }
    Ok(value)
}

/// Whether a word is decimal digits, at least one.
pub fn is_digits(word: &[u8]) -> bool
    ensures { MatchBool result (IsDigits word.now) (¬ IsDigits word.now) }
{
    if word.is_empty() {
        return false;
    }
    for b in word {
        if !is_digit(*b) {
            return false;
        }
    }
    true
}

fn is_digit(b: u8) -> bool
    ensures { MatchBool result (IsDigit b) (¬ IsDigit b) }
{
    b'0' <= b && b <= b'9'
}

/// The value of decimal digits, or the last value of u64 where it is greater.
pub fn capped_value(word: &[u8]) -> u64
    ensures { result ≡ min (value_of word.now) (2 ^ 64 - 1) }
{
    let mut value = 0u64;
    for b in word {
        value = value
            .saturating_mul(10)
            .saturating_add(u64::from(b.saturating_sub(b'0')));
    }
    value
}

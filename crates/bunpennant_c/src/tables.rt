// A lent table: new, after a tick, and how many records wait.
ghost use Rattle.std.specs.Prelude.{◌≡◌};
ghost use Rattle.refusal.specs.Answer.{value};
ghost use Rattle.records.specs.Number.{read_number};
ghost use Rattle.words.specs.Words.{number_of};
ghost use Rattle.words.specs.Answers.{left, new_on, tick_on};

/// Makes it a new table: all zeros.
#[unsafe(no_mangle)]
pub extern "C" fn rtm_new(words: &mut [u64; 64])
    ensures { left (value 0) words.new ≡ new_on }
{
    bunpennant::rtm_new(words);
}

/// A tick: how many slots it emptied.
#[unsafe(no_mangle)]
pub extern "C" fn rtm_tick(words: &mut [u64; 64]) -> u8
    ensures { left (value result) words.new ≡ tick_on words.old }
{
    bunpennant::rtm_tick(words)
}

/// How many records wait, by the number that the table keeps: at most 16.
#[unsafe(no_mangle)]
pub extern "C" fn rtm_waiting(words: &[u64; 64]) -> u8
    ensures { result ≡ read_number (number_of words.now) }
{
    bunpennant::rtm_waiting(words)
}

// What the test programs print: words, numbers and answers. What reaches standard output no contract
// can say: each function says what it answers beside, and `Told` and `Word` which octets stand for
// them in a line. A write that fails is not told. The programs here write lines by `Told` and `Word`; the
// functions stay for callers that count what they print.
#![tactic(auto)]

mod told;

ghost use Rattle.std.specs.Prelude.{◌≡◌, length};
ghost use Rattle.io.specs.Digits.{IsDigitCount};
ghost use Rattle.refusal.specs.Answer.{refusal_in};
ghost use Rattle.refusal.specs.Refusal.{answer_of};

use refusal::Refusal;
use rules::Handled;
pub use told::{Told, Word};

/// Prints a word, and answers how many octets it has.
pub fn text(rt: &impl Print, word: &[u8]) -> usize
    ensures { result ≡ length word.now }
{
    let _ = rt.write_all(word);
    word.len()
}

/// Ends the line, and answers how many octets that takes.
pub fn end_line(rt: &impl Print) -> usize
    ensures { result ≡ 1 }
{
    text(rt, b"\n")
}

/// Prints a word and a number behind it, in decimal, and answers how many digits that has.
pub fn number(rt: &impl Print, word: &[u8], n: u64) -> usize
    ensures { IsDigitCount 10 1 n result }
{
    // `print!` would not tell how many digits it wrote.
    let mut digits = [0u8; 20];
    let count = io::decimal(n, &mut digits);
    text(rt, word);
    text(rt, &digits[..count]);
    count
}

/// Prints a refusal, and answers how many digits its number has.
pub fn refused(rt: &impl Print, n: u8) -> usize
    ensures { IsDigitCount 10 1 n result }
{
    number(rt, b"refused ", n as u64)
}

/// Prints what a node answered, and answers the refusal's number, or 0. The number is what it promises,
/// so that it is no Result.
pub fn answer(rt: &impl Print, answer: Result<Handled, Refusal>) -> u8
    ensures { result ≡ refusal_in (answer_of answer) }
{
    let _ = print!(rt; "{}", Told(answer.map(Word)));
    match answer {
        Ok(_) => 0,
        Err(refusal) => refusal.number(),
    }
}

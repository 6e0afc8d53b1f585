// For bench/ alone: calls as Rattle code makes them, many in one function: with the table by value,
// the form that document 01 gives, and with the table lent. Count, messages and
// output are parameters of their own, as bench/ hands them over.
#![tactic(auto)]

ghost use Rattle.std.specs.Prelude.{◌≤◌};

use node::Handled;
use refusal::Refusal;
use stamp::Stamps;
use stamp::ptp::Stamp;
use table::Table;

// Stamps 1.5 microseconds apart, over the end of a second.
fn stamps() -> Stamps {
    let entry = Stamp {
        seconds: 100,
        nanoseconds: 999_999_000,
    };
    let exit = Stamp {
        seconds: 101,
        nanoseconds: 500,
    };
    Stamps::Ptp(entry, exit)
}

// 1 for a Sync that was kept and a Follow_Up that was added to.
fn went_well(kept: Result<Handled, Refusal>, added: Result<Handled, Refusal>) -> u64
    ensures { result ≤ 1 }
{
    match (kept, added) {
        (Ok(Handled::Waiting), Ok(Handled::Added)) => 1,
        _ => 0,
    }
}

/// Hands a Sync and its Follow_Up to a two-step node with a new table, so many times, and answers for
/// how many pairs the Sync was kept and the Follow_Up added to.
pub fn bench_pairs(sync: &mut [u8], follow_up: &mut [u8], output: &mut [u8], count: u64) -> u64
    ensures { result ≤ count }
{
    let mut table = Table::new();
    let mut right = 0;
    for done in 0..count {
        let kept = rtm::two_step(table, sync, output, stamps());
        let added = rtm::two_step(kept.table, follow_up, output, stamps());
        table = added.table;
        right += went_well(kept.answer, added.answer);
    }
    right
}

/// The same with the table lent. It has a loop of its own, since what is timed is each form as written.
pub fn bench_pairs_lent(sync: &mut [u8], follow_up: &mut [u8], output: &mut [u8], count: u64) -> u64
    ensures { result ≤ count }
{
    let mut table = Table::new();
    let mut right = 0;
    for done in 0..count {
        let kept = rtm::two_step_lent(&mut table.words, sync, output, stamps());
        let added = rtm::two_step_lent(&mut table.words, follow_up, output, stamps());
        right += went_well(kept, added);
    }
    right
}

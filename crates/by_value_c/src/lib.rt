// For bench/ alone: calls as Rattle code makes them, many in one function: with the table by value,
// the form that document 01 gives, and with the table lent.
#![tactic(auto)]

ghost use Rattle.std.specs.Prelude.{◌≤◌};

/// Hands a Sync and its Follow_Up to a two-step node with a new table, so many times, and answers for
/// how many pairs the Sync was kept and the Follow_Up added to.
#[unsafe(no_mangle)]
pub extern "C" fn bench_pairs(
    sync: &mut [u8],
    follow_up: &mut [u8],
    output: &mut [u8],
    count: u64,
) -> u64
    ensures { result ≤ count }
{
    by_value::bench_pairs(sync, follow_up, output, count)
}

/// The same with the table lent.
#[unsafe(no_mangle)]
pub extern "C" fn bench_pairs_lent(
    sync: &mut [u8],
    follow_up: &mut [u8],
    output: &mut [u8],
    count: u64,
) -> u64
    ensures { result ≤ count }
{
    by_value::bench_pairs_lent(sync, follow_up, output, count)
}

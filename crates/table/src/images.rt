// The image of a lent table, written and loaded (document 02, W-201 and W-211). The image itself is
// the crate `switchover`.
ghost use Rattle.std.specs.Prelude.{◌≡◌};
ghost use Rattle.refusal.specs.Written.{written};
ghost use Rattle.image.specs.Image.{write_of};
ghost use Rattle.switchover.specs.Answers.{loading_answer};
ghost use Rattle.words.specs.Words.{slots_of};
ghost use Rattle.words.specs.Answers.{left};
ghost use Rattle.table.specs.Table.{load_on};

use refusal::Refusal;

/// Writes the image of a lent table: see `Table::write`.
pub fn write_image(words: &[u64; 64], out: &mut [u8]) -> Result<usize, Refusal>
    ensures { written result out.new ≡ write_of (slots_of words.now) out.old }
{
    switchover::write(lent::slots(words), out)
}

/// Loads an image into a lent table: see `Table::load`. A refusal leaves every word as it came.
pub fn load_image(words: &mut [u64; 64], octets: &[u8]) -> Result<(), Refusal>
    ensures { left (loading_answer result) words.new ≡ load_on octets.now words.old }
{
    let loaded = switchover::load(octets);
    loaded.answer?;
    lent::fill(words, loaded.slots, loaded.number);
    Ok(())
}

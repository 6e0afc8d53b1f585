// The image of a lent table, written and loaded, and images converted from one form to the other.
ghost use Rattle.std.specs.Prelude.{◌≡◌};
ghost use Rattle.image.specs.declared.Form.TheVariants.{Old, New};
ghost use Rattle.image.specs.Image.{write_of, convert_of};
ghost use Rattle.words.specs.Words.{slots_of};
ghost use Rattle.table.specs.Table.{load_on};
ghost use Rattle.bunpennant.specs.C.{sized, sized_of, lent, lent_of};

use crate::sizes;

/// Writes the table's image, in the new form: 0 and its size, or refusal 22 or 12, which leaves output
/// and size as they came.
pub fn rtm_write_image(words: &[u64; 64], output: &mut [u8], size: &mut usize) -> u8
    ensures { sized result output.new size.new
        ≡ sized_of size.old (write_of (slots_of words.now) output.old) }
{
    sizes::tell(table::write_image(words, output), size)
}

/// Loads an image of either form: 0, or refusal 22, which leaves every word as it came.
pub fn rtm_load_image(words: &mut [u64; 64], image: &[u8]) -> u8
    ensures { lent result words.new ≡ lent_of (load_on image.now words.old) }
{
    sizes::number(table::load_image(words, image))
}

/// Converts an image of the old form to the new: 0 and its size, or refusal 22 or 12, which leaves
/// output and size as they came.
pub fn rtm_image_to_new(image: &[u8], output: &mut [u8], size: &mut usize) -> u8
    ensures { sized result output.new size.new
        ≡ sized_of size.old (convert_of Old New image.now output.old) }
{
    sizes::tell(switchover::to_new(image, output), size)
}

/// Converts an image of the new form to the old: 0 and its size, or refusal 22, 27 or 12, which leaves
/// output and size as they came.
pub fn rtm_image_to_old(image: &[u8], output: &mut [u8], size: &mut usize) -> u8
    ensures { sized result output.new size.new
        ≡ sized_of size.old (convert_of New Old image.now output.old) }
{
    sizes::tell(switchover::to_old(image, output), size)
}

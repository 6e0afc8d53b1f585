// Converting an image from one form to the other (document 02, W-211).
ghost use Rattle.std.specs.Prelude.{◌≡◌};
ghost use Rattle.refusal.specs.Written.{written};
ghost use Rattle.image.specs.declared.Form.TheVariants.{Old, New};
ghost use Rattle.image.specs.Image.{convert_of};

use crate::{loader, writer};
use image::Form;
use refusal::Refusal;

// Writes the records of an image of one form as an image of another, at the start of the output, which
// stays as it came beyond the size and on refusal.
#[inline(always)]
fn convert(from: Form, to: Form, image: &[u8], out: &mut [u8]) -> Result<usize, Refusal>
    ensures { written result out.new ≡ convert_of from to image.now out.old }
{
    let listing = loader::read_as(from, image)?;
    writer::write_records(to, listing.records(), out)
}

/// Converts an image of the old form to the new. Refusal 22 for any other octets than an image of
/// the old form that can be loaded, then 12.
pub fn to_new(image: &[u8], out: &mut [u8]) -> Result<usize, Refusal>
    ensures { written result out.new ≡ convert_of Old New image.now out.old }
{
    convert(Form::Old, Form::New, image, out)
}

/// Converts an image of the new form to the old. Refusal 22 for any other octets than an image of
/// the new form that can be loaded, then 27 where it holds a Delay record, then 12.
pub fn to_old(image: &[u8], out: &mut [u8]) -> Result<usize, Refusal>
    ensures { written result out.new ≡ convert_of New Old image.now out.old }
{
    convert(Form::New, Form::Old, image, out)
}

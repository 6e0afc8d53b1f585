// Writing the image of a table.
ghost use Rattle.std.specs.Prelude.{◌≡◌, true};
ghost use Rattle.refusal.specs.Written.{written};
ghost use Rattle.image.specs.Image.{loadable, image_in, to_output, write_of};

use crate::contents::Contents;
use crate::{bodies, listing};
use image::Form;
use records::Record;
use refusal::Refusal;

// Writes the image of the records, in this form, at the start of the output, which stays as it came
// beyond the size and on refusal. Refusal 27 for a Delay record in the old form, then 12.
#[tactic(auto, using(crate::proofs::Writes::write_small))]
pub(crate) fn write_records(
    form: Form,
    records: &[Record],
    out: &mut [u8],
) -> Result<usize, Refusal>
    requires { loadable records.now ≡ true }
    ensures { written result out.new ≡ to_output out.old (image_in form records.now) }
{
    let contents = Contents {
        form,
        count: records.len(),
    };
    let told = listing::are_told(form, records);
    let size = contents.offset(contents.count);
    let fits = size <= out.len();
    if !told {
        return Err(Refusal::DelayRecord);
    }
    if !fits {
        return Err(Refusal::OutputTooSmall);
    }
    contents.put(out);
    bodies::put_bodies(contents, out, records);
    Ok(size)
}

/// Writes the image of these slots, in the new form, at the start of the output, which stays as it
/// came beyond the size and on refusal. Refusal 22 for records that could not be loaded, then 12.
pub fn write(slots: [Record; 16], out: &mut [u8]) -> Result<usize, Refusal>
    ensures { written result out.new ≡ write_of slots out.old }
{
    let listing = listing::list(&slots);
    let records = listing.records();
    if !listing::are_loadable(records) {
        return Err(Refusal::Image);
    }
    write_records(Form::New, records, out)
}

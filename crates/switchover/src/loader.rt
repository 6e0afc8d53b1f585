// Loading an image, of either form.
ghost use Rattle.std.specs.Prelude.{◌≡◌, replicate};
ghost use Rattle.records.specs.Slots.{zeros};
ghost use Rattle.image.specs.Image.{read_as, form_in, load_into};
ghost use Rattle.switchover.specs.Answers.{records_read, loaded};

use crate::contents::Contents;
use crate::listing::Listing;
use crate::{bodies, contents, layout, listing};
use image::Form;
use records::Record;
use refusal::Refusal;

/// The slots that an image loads, how many of them hold a record (document 02, W-206), and the answer.
/// This stands beside them, as they are promised on refusal too: every slot is zeros, the number 0.
#[derive(Clone, Copy)]
pub struct Loaded {
    pub slots: [Record; 16],
    pub number: u8,
    pub answer: Result<(), Refusal>,
}

// The records that these octets hold as an image of this form, in its order. Refusal 22 for any other
// string than an image of records that can be loaded.
#[inline(always)]
pub(crate) fn read_as(form: Form, image: &[u8]) -> Result<Listing, Refusal>
    ensures { records_read result ≡ read_as form image.now }
{
    let count = contents::count(form, image);
    if count > 16 {
        return Err(Refusal::Image);
    }
    let contents = Contents { form, count };
    if !contents.are_laid_out(image) {
        return Err(Refusal::Image);
    }
    let slots = bodies::read_bodies(contents, image);
    let listing = Listing { slots, count };
    if !listing::are_loadable(listing.records()) {
        return Err(Refusal::Image);
    }
    Ok(listing)
}

// The form that the first octet says. No From: any octets have a form.
fn form_of(image: &[u8]) -> Form
    ensures { result ≡ form_in image.now }
{
    match octets::read8(image, 0) {
        layout::LEAD => Form::New,
        _ => Form::Old,
    }
}

/// The slots that an image of either form loads. Refusal 22 for any other octets. It is the load over a
/// table with no records.
pub fn load(image: &[u8]) -> Loaded
    ensures { loaded result ≡ load_into image.now (replicate 16 zeros) 0 }
{
    match read_as(form_of(image), image) {
        Ok(listing) => {
            // An array goes into a literal by a variable.
            let slots = listing.slots;
            Loaded {
                slots,
                number: listing.count as u8,
                answer: Ok(()),
            }
        }
        Err(refusal) => {
            let slots = [Record::zeros(); 16];
            Loaded {
                slots,
                number: 0,
                answer: Err(refusal),
            }
        }
    }
}

// What a node call answers, and the residences that it takes.
ghost use Rattle.std.specs.Prelude.{◌≡◌};
ghost use Rattle.refusal.specs.Refusal.{answer_of};
ghost use Rattle.residence.specs.Residence.{accepted_of};

use refusal::Refusal;
use residence::Residence;
use rules::Handled;
use table::Table;

/// The answer of a two-step call, and the table, which document 01 has handed back on refusal too.
#[derive(Clone, Copy)]
pub struct Done {
    pub table: Table,
    pub answer: Result<Handled, Refusal>,
}

/// The answer of a two-step call, and the residence of the record that it collected; 0 where it
/// collected none, as the definitions of the report have it: the answer says which.
#[derive(Clone, Copy)]
pub struct Told {
    pub answer: Result<Handled, Refusal>,
    pub collected: u64,
}

/// The units of a residence that a node takes.
pub(crate) fn accept(residence: Residence) -> Result<u64, Refusal>
    ensures { answer_of result ≡ accepted_of residence }
{
    let units = residence?;
    if residence::LIMIT <= units {
        return Err(Refusal::TooLongResidence);
    }
    Ok(units)
}

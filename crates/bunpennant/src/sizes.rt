// What was answered, told to C: its value through a pointer, or the refusal's number.
ghost use Rattle.std.specs.Prelude.{◌≡◌};
ghost use Rattle.refusal.specs.Answer.{refusal_in};
ghost use Rattle.refusal.specs.Refusal.{answer_of};
ghost use Rattle.bunpennant.specs.C.{told, tell};

use refusal::Refusal;

/// 0 and the value, or the refusal's number, which leaves the place as it came.
pub fn tell<T: Copy>(answer: Result<T, Refusal>, place: &mut T) -> u8
    ensures { told result place.new ≡ tell place.old (answer_of answer) }
{
    match answer {
        Ok(value) => {
            *place = value;
            0
        }
        Err(refusal) => refusal.number(),
    }
}

/// 0, or the refusal's number.
pub fn number<T: Copy>(answer: Result<T, Refusal>) -> u8
    ensures { result ≡ refusal_in (answer_of answer) }
{
    match answer {
        Ok(_) => 0,
        Err(refusal) => refusal.number(),
    }
}

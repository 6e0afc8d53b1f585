// An answer as a line shows it.
ghost use Rattle.std.specs.Prelude.{Some};
ghost use Rattle.print.specs.Told.{told_by, word_of};

use refusal::Refusal;
use rules::Handled;
use std::fmt;

/// What was answered, or `refused` and the refusal's number.
#[derive(Drop)]
pub struct Told<T>(pub Result<T, Refusal>);

/// The word for what a node did.
#[derive(Clone, Copy)]
pub struct Word(pub Handled);

impl<T: fmt::Display> fmt::Display for Told<T> {
    ghost output = { λ told. told_by T.output told.0 };

    fn fmt<W: fmt::Write>(&self, f: &mut fmt::Formatter<W>) -> fmt::Result {
        match &self.0 {
            Ok(answer) => write!(f, "{answer}"),
            Err(refusal) => write!(f, "{refusal}"),
        }
    }
}

impl fmt::Display for Word {
    ghost output = { λ word. Some (word_of word.0) };

    fn fmt<W: fmt::Write>(&self, f: &mut fmt::Formatter<W>) -> fmt::Result {
        f.write_str(match self.0 {
            Handled::Updated => "updated",
            Handled::Passed => "passed",
            Handled::Created => "created",
            Handled::Waiting => "waiting",
            Handled::Added => "added",
        })
    }
}

// Answers, as a line shows them.
use node::Handled;
use print::{Told, Word};
use refusal::Refusal;
use std::fmt;

// What a node answers.
pub(crate) fn told(answer: Result<Handled, Refusal>) -> Told<Word> {
    Told(answer.map(Word))
}

// The answer where an image is loaded, in words of its own.
#[derive(Clone, Copy)]
pub(crate) struct Loaded(pub(crate) Result<(), Refusal>);

impl fmt::Display for Loaded {
    fn fmt<W: fmt::Write>(&self, f: &mut fmt::Formatter<W>) -> fmt::Result {
        match self.0 {
            Ok(()) => write!(f, "loaded"),
            Err(refusal) => write!(f, "load {refusal}"),
        }
    }
}

// Where an entry of a list lies.

/// A part of a list: where it begins, and its length.
#[derive(Clone, Copy, Debug, PartialEq, Eq, Hash)]
pub struct Part {
    pub offset: usize,
    pub length: usize,
}

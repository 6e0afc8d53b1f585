// What a line has beside std's words and numbers.
use std::fmt;

// Octets in hexadecimal, "-" where there are none.
#[derive(Clone, Copy)]
pub(crate) struct Octets<'a>(pub(crate) &'a [u8]);

// A word and what stands behind it.
#[derive(Drop)]
pub(crate) struct Named<T>(pub(crate) &'static str, pub(crate) T);

impl fmt::Display for Octets<'_> {
    fn fmt<W: fmt::Write>(&self, f: &mut fmt::Formatter<W>) -> fmt::Result {
        if self.0.is_empty() {
            return write!(f, "-");
        }
        for octet in self.0 {
            write!(f, "{octet:02x}")?;
        }
        Ok(())
    }
}

impl<T: fmt::Display> fmt::Display for Named<T> {
    fn fmt<W: fmt::Write>(&self, f: &mut fmt::Formatter<W>) -> fmt::Result {
        write!(f, "{} {}", self.0, self.1)
    }
}

// How a case is laid out. An octet past its end is 0, and a part past it has no octets.

// More than the octets of any field, and of any output that a case lends.
pub(crate) const MOST: usize = 65536;

// The part from octet n on.
pub(crate) fn after(s: &[u8], n: usize) -> &[u8] {
    s.get(n..).unwrap_or(&[])
}

// A field of any size, which is two octets of size and the octets, and the part behind it.
pub(crate) fn counted(s: &[u8]) -> (&[u8], &[u8]) {
    let size = octets::read16(s, 0) as usize;
    after(s, 2).split_at_checked(size).unwrap_or((&[], &[]))
}

// A field's octets in a buffer, for a call that may change them.
pub(crate) fn copied<'a>(buffer: &'a mut [u8; MOST], s: &[u8]) -> &'a mut [u8] {
    if buffer.len() < s.len() {
        return &mut buffer[0..0];
    }
    let part = &mut buffer[0..s.len()];
    octets::put(part, 0, s);
    part
}

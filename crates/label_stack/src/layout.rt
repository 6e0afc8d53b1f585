// The layout of a label entry, in the order of RFC 3032's figure: label (20 bits), traffic class
// (3), bottom of stack (1), TTL (8).

// The label stands above the entry's other 12 bits. Traffic class 0 and "not bottom of stack" add
// nothing to them.
pub const LABEL_UNIT: u32 = 4096;

// The first label that is not reserved, and the last.
pub const FIRST_LABEL: u32 = 16;

pub const LAST_LABEL: u32 = 1048575;

// The entry of the G-ACh Label (GAL, RFC 5586): label 13, traffic class 0, bottom of stack, TTL 1.
pub const GAL_ENTRY: [u8; 4] = *b"\x00\x00\xD1\x01";

// Where the second entry starts, and the size of both.
pub const SECOND_ENTRY: usize = 4;

pub const BOTH_SIZE: usize = 8;

// The layout of the PTPv2 header (IEEE 1588, 13.3), in the order of its figure: the first octet of
// each field that is looked at.

// The low half of its octet; the high half is majorSdoId.
pub const MESSAGE_TYPE: usize = 0;

// The low half of its octet; the high half is minorVersionPTP.
pub const VERSION_PTP: usize = 1;

pub const PTP_V2: u8 = 2;

pub const CORRECTION_FIELD: usize = 8;

// sourcePortIdentity, octets 20 to 29: a clock identity and a port number.
pub const CLOCK_IDENTITY: usize = 20;

pub const PORT_NUMBER: usize = 28;

pub const SEQUENCE_ID: usize = 30;

// The whole header.
pub const HEADER_SIZE: usize = 34;

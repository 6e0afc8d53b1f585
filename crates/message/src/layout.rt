// The layout of a message, in the order of RFC 8169's figures: the first octet of each field.

/// Octets 0 to 3, the G-ACh header: 0001, Version 0, Reserved 0, channel type 000F.
pub const G_ACH_HEADER: [u8; 4] = *b"\x10\x00\x00\x0F";

pub const CHANNEL_TYPE: usize = 2;

pub const RTM_CHANNEL: u16 = 0x000F;

pub const SCRATCH_PAD: usize = 4;

pub const TYPE: usize = 12;

pub const LENGTH: usize = 14;

pub const VALUE: usize = 16;

// The sub-TLV with which the Value of types 2 to 4 begins, counted from the Value's first octet.
pub const SUB_TLV_TYPE: usize = 0;

pub const PTP_SUB_TLV: u16 = 1;

pub const SUB_TLV_LENGTH: usize = 2;

/// The length that the sub-TLV states, as RFC 8169 gives it.
pub const PTP_SUB_TLV_LENGTH: u16 = 20;

/// The same of neighbours that count its Value alone.
pub const PTP_SUB_TLV_VALUE_LENGTH: u16 = 16;

pub const FLAGS: usize = 4;

pub const PTP_TYPE: usize = 7;

pub const CLOCK_IDENTITY: usize = 8;

pub const PORT_NUMBER: usize = 16;

pub const SEQUENCE_ID: usize = 18;

pub const SUB_TLV_SIZE: usize = 20;

/// The carried packet of types 2 to 4, counted from the message's first octet.
pub const CARRIED: usize = VALUE + SUB_TLV_SIZE;

/// The largest message.
pub const LARGEST: usize = 2048;

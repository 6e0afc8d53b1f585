// The Types of an RTM message (RFC 8169, 7.2) and the PTPTypes of IEEE 1588 that document 01 names.

pub const NO_PAYLOAD: u16 = 1;

pub const PTP_ETHERNET: u16 = 2;

pub const PTP_IPV4: u16 = 3;

pub const PTP_IPV6: u16 = 4;

pub const NTP: u16 = 5;

pub const SYNC: u8 = 0;

pub const DELAY_REQ: u8 = 1;

pub const PDELAY_RESP: u8 = 3;

pub const FOLLOW_UP: u8 = 8;

pub const DELAY_RESP: u8 = 9;

/// The largest PTPType: it has four bits.
pub const LAST_PTP_TYPE: u8 = 15;

// The layout of an entry, in the order of RFC 8169's figures: type, length, two reserved octets, the
// address.

pub const TYPE: usize = 0;

pub const LENGTH: usize = 1;

pub const ADDRESS: usize = 4;

// The types, and the whole length of an entry of each.
pub const IPV4: u8 = 1;

pub const IPV4_SIZE: usize = 8;

pub const IPV6: u8 = 2;

pub const IPV6_SIZE: usize = 20;

// A node and an interface: RFC 8169's unnumbered interface.
pub const UNNUMBERED: u8 = 3;

pub const UNNUMBERED_SIZE: usize = 12;

// The largest list.
pub const LARGEST: usize = 1024;

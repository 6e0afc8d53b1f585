// What a message says, beside the packet that it carries.
ghost use Rattle.std.specs.Prelude.{◌≡◌};
ghost use Rattle.message.specs.Read.{is_ptp, is_sub_tlv_length};

use crate::{layout, types};

/// The header's fields.
#[derive(Clone, Copy, Debug, PartialEq, Eq, Hash)]
pub struct Header {
    /// The Type. Any number: one that is no Type is answered (6), so that it is no enum.
    pub message_type: u16,
    /// The Scratch Pad: nanoseconds times 65,536, signed.
    pub pad: i64,
}

/// The sub-TLV's fields, of types 2 to 4. The port identity (document 01's "port", ten octets) is
/// two numbers, clock identity and port number.
#[derive(Clone, Copy, Debug, Default, PartialEq, Eq, Hash)]
pub struct SubTlv {
    /// The length that it states, 20 or 16. It has 20 octets either way.
    pub length: u16,
    /// The S bit.
    pub two_step: bool,
    /// The PTPType. Any number: one above 15 is answered (17).
    pub ptp_type: u8,
    pub clock: u64,
    pub port: u16,
    pub sequence: u16,
}

/// What a message says that is read.
#[derive(Clone, Copy, Debug, PartialEq, Eq, Hash)]
pub enum Message {
    /// Types 1 and 5, which have no sub-TLV.
    Plain(Header),
    /// Types 2 to 4.
    Ptp(Header, SubTlv),
}

impl Message {
    ghost use Rattle.message.specs.Read.{header_in};

    /// Its header.
    pub fn header(self) -> Header
        ensures { result ≡ header_in self }
    {
        match self {
            Message::Plain(header) | Message::Ptp(header, _) => header,
        }
    }
}

/// What is written of a message. The sub-TLV is not looked at for types 1 and 5.
#[derive(Clone, Copy, Debug, PartialEq, Eq, Hash)]
pub struct Fields {
    pub header: Header,
    pub sub_tlv: SubTlv,
}

/// Types 2 to 4, whose Value begins with the sub-TLV.
pub fn is_ptp(message_type: u16) -> bool
    ensures { result ≡ is_ptp message_type }
{
    matches!(message_type, types::PTP_ETHERNET..=types::PTP_IPV6)
}

/// Whether a sub-TLV may state this length.
pub fn is_sub_tlv_length(length: u16) -> bool
    ensures { result ≡ is_sub_tlv_length length }
{
    length == layout::PTP_SUB_TLV_VALUE_LENGTH || length == layout::PTP_SUB_TLV_LENGTH
}

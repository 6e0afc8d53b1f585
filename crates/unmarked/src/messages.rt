// Messages, as `writer::write` writes them.
use message::{Fields, Header, SubTlv, layout, types};
use residence::{Residence, ResidenceError};
use std::fmt;

// The messages that a two-step node keeps, and those that it gathers for.
#[derive(Clone, Copy)]
pub(crate) enum Kind {
    Sync,
    FollowUp,
    DelayReq,
    DelayResp,
}

impl Kind {
    fn ptp_type(self) -> u8 {
        match self {
            Kind::Sync => types::SYNC,
            Kind::FollowUp => types::FOLLOW_UP,
            Kind::DelayReq => types::DELAY_REQ,
            Kind::DelayResp => types::DELAY_RESP,
        }
    }

    // The residence that it comes to a node with; of a Follow_Up and a Delay_Resp it is not looked at.
    pub(crate) fn residence(self) -> Residence {
        match self {
            Kind::Sync => Ok(9),
            Kind::DelayReq => Ok(5),
            Kind::FollowUp | Kind::DelayResp => Err(ResidenceError::InvalidStamp),
        }
    }

    // A message of this kind, with S set and pad 0.
    pub(crate) fn fields(self, identity: u16) -> Fields {
        of_ptp_type(self.ptp_type(), identity)
    }
}

impl fmt::Display for Kind {
    fn fmt<W: fmt::Write>(&self, f: &mut fmt::Formatter<W>) -> fmt::Result {
        f.write_str(match self {
            Kind::Sync => "Sync",
            Kind::FollowUp => "Follow_Up",
            Kind::DelayReq => "Delay_Req",
            Kind::DelayResp => "Delay_Resp",
        })
    }
}

// A message of this PTPType with S set and pad 0. Clock, port and sequence are alike.
pub(crate) fn of_ptp_type(ptp_type: u8, identity: u16) -> Fields {
    Fields {
        header: Header {
            message_type: types::PTP_IPV4,
            pad: 0,
        },
        sub_tlv: SubTlv {
            length: layout::PTP_SUB_TLV_LENGTH,
            two_step: true,
            ptp_type,
            clock: u64::from(identity),
            port: identity,
            sequence: identity,
        },
    }
}

// A message of any Type with this pad: what it says beside the pad is that of a Sync with S clear.
pub(crate) fn of_type(message_type: u16, pad: i64) -> Fields {
    Fields {
        header: Header { message_type, pad },
        sub_tlv: SubTlv {
            length: layout::PTP_SUB_TLV_LENGTH,
            two_step: false,
            ptp_type: types::SYNC,
            clock: 0x0001_0203_0405_0607,
            port: 1,
            sequence: 258,
        },
    }
}

// A Sync with S clear and pad 0.
pub(crate) fn one_step_sync() -> Fields {
    of_type(types::PTP_IPV4, 0)
}

// The octets of a message, without a packet; zeros where it cannot be written.
pub(crate) fn written(fields: Fields) -> [u8; 36] {
    let mut message = [0; 36];
    let _ = writer::write(&mut message, fields, b"");
    message
}

// Operations 1 and 12: what a message says, and the length that its sub-TLV states.
use crate::case;
use crate::shown::Octets;
use message::{Header, Message, SubTlv};
use print::Told;
use refusal::Refusal;
use std::{fmt, io};

// A message's fields, "-" for each of a sub-TLV where there is none, and the packet that it carries.
#[derive(Clone, Copy)]
struct Shown<'a> {
    message: Message,
    carried: &'a [u8],
}

// That, and the length.
#[derive(Clone, Copy)]
struct WithLength<'a>(Shown<'a>);

impl fmt::Display for Shown<'_> {
    fn fmt<W: fmt::Write>(&self, f: &mut fmt::Formatter<W>) -> fmt::Result {
        let Header { message_type, pad } = self.message.header();
        write!(f, "type {message_type} pad {pad}")?;
        match self.message {
            Message::Plain(_) => write!(f, " s - kind - port - seq -")?,
            Message::Ptp(_, sub_tlv) => {
                let SubTlv {
                    two_step,
                    ptp_type,
                    clock,
                    port,
                    sequence,
                    ..
                } = sub_tlv;
                write!(f, " s {} kind {ptp_type}", two_step as u8)?;
                write!(f, " port {clock:016x}{port:04x} seq {sequence}")?
            }
        }
        write!(f, " carried {}", Octets(self.carried))
    }
}

impl fmt::Display for WithLength<'_> {
    fn fmt<W: fmt::Write>(&self, f: &mut fmt::Formatter<W>) -> fmt::Result {
        match self.0.message {
            Message::Plain(_) => write!(f, "{} length -", self.0),
            Message::Ptp(_, sub_tlv) => write!(f, "{} length {}", self.0, sub_tlv.length),
        }
    }
}

fn read(body: &[u8]) -> Result<Shown, Refusal> {
    let (octets, _) = case::counted(body);
    Ok(Shown {
        message: reader::read(octets)?,
        carried: reader::carried(octets),
    })
}

pub(crate) fn run(rt: &impl Print, body: &[u8]) -> io::Result<()> {
    println!(rt; "read {}", Told(read(body)))
}

pub(crate) fn run_length(rt: &impl Print, body: &[u8]) -> io::Result<()> {
    println!(rt; "read-length {}", Told(read(body).map(WithLength)))
}

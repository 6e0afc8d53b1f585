// struct rtm_fields as 16 numbers of 16 bits, written and read.
ghost use Rattle.std.specs.Prelude.{◌≡◌, cond, not, ◌+◌, ◌*◌, ◌/◌, ◌%◌, ◌<◌, eqb};
ghost use Rattle.bunpennant.specs.C.{put64, get64, header_fields, sub_tlv_fields, fields_in};

use message::{Fields, Header, SubTlv};

// The struct's members, in its order.
const PAD: usize = 0;

const CLOCK: usize = 4;

const TYPE: usize = 8;

const LENGTH: usize = 9;

const PORT: usize = 10;

const SEQUENCE: usize = 11;

const FLAGS: usize = 12;

#[tactic(auto, unfolding(crate::specs::C::put64))]
fn put64(fields: &mut [u16; 16], at: usize, x: u64)
    requires { at < 8 }
    ensures { fields.new ≡ put64 fields.old at x }
{
    fields[at] = (x % 65_536) as u16;
    fields[at + 1] = (x / 65_536 % 65_536) as u16;
    fields[at + 2] = (x / 4_294_967_296 % 65_536) as u16;
    fields[at + 3] = (x / 281_474_976_710_656 % 65_536) as u16;
}

// Four numbers as one, the lowest first.
fn whole(a: u16, b: u16, c: u16, d: u16) -> u64
    ensures { result ≡ a + (b + (c + d * 65536) * 65536) * 65536 }
{
    u64::from(a) + (u64::from(b) + (u64::from(c) + u64::from(d) * 65_536) * 65_536) * 65_536
}

#[tactic(auto, unfolding(crate::specs::C::get64))]
fn get64(fields: &[u16; 16], at: usize) -> u64
    requires { at < 8 }
    ensures { result ≡ get64 fields.now at }
{
    whole(fields[at], fields[at + 1], fields[at + 2], fields[at + 3])
}

// S and PTPType in one number.
fn flags_of(two_step: bool, ptp_type: u8) -> u16
    ensures { result ≡ cond two_step 1 0 + ptp_type * 256 }
{
    u16::from(two_step) + u16::from(ptp_type) * 256
}

// S in such a number, which any value but 0 of the low octet sets.
fn two_step_in(flags: u16) -> bool
    ensures { result ≡ not (eqb (flags % 256) 0) }
{
    flags % 256 != 0
}

fn ptp_type_in(flags: u16) -> u8
    ensures { result ≡ flags / 256 }
{
    (flags / 256) as u8
}

pub(crate) fn put_header(fields: &mut [u16; 16], header: Header)
    ensures { fields.new ≡ header_fields fields.old header }
{
    put64(fields, PAD, header.pad.cast_unsigned());
    fields[TYPE] = header.message_type;
}

pub(crate) fn put_sub_tlv(fields: &mut [u16; 16], sub_tlv: SubTlv)
    ensures { fields.new ≡ sub_tlv_fields fields.old sub_tlv }
{
    put64(fields, CLOCK, sub_tlv.clock);
    fields[LENGTH] = sub_tlv.length;
    fields[PORT] = sub_tlv.port;
    fields[SEQUENCE] = sub_tlv.sequence;
    fields[FLAGS] = flags_of(sub_tlv.two_step, sub_tlv.ptp_type);
}

pub(crate) fn fields_in(fields: &[u16; 16]) -> Fields
    ensures { result ≡ fields_in fields.now }
{
    let header = Header {
        message_type: fields[TYPE],
        pad: get64(fields, PAD).cast_signed(),
    };
    let sub_tlv = SubTlv {
        length: fields[LENGTH],
        two_step: two_step_in(fields[FLAGS]),
        ptp_type: ptp_type_in(fields[FLAGS]),
        clock: get64(fields, CLOCK),
        port: fields[PORT],
        sequence: fields[SEQUENCE],
    };
    Fields { header, sub_tlv }
}

// The program `show`: a message of standard input, and its line on standard output (document 01,
// Numbers to check against: "The program reads standard input, up to 2,049 octets, and prints one
// line").
ghost use Rattle.std.specs.Prelude.{◌≡◌, ◌++◌, ◌+◌, ◌≤◌, length, take, drop};
ghost use Rattle.io.specs.Counts.{IsPrefixLen};
ghost use Rattle.refusal.specs.Answer.{value as read};
ghost use Rattle.message.specs.declared.fields.Message.TheVariants.{Plain, Ptp};
ghost use Rattle.line.specs.Line.{header_words, sub_tlv_words, line_by, line_of};

use crate::text::Text;
use crate::{ROOM, program};
use message::{Header, Message, SubTlv, layout};

// The largest message and an octet more, so that a message that is too long is seen to be.
const MOST: usize = layout::LARGEST + 1;

// Type and pad.
fn header_words(text: &mut Text, header: Header)
    requires { length text.old + 51 ≤ ROOM }
    ensures value { text.new ≡ text.old ++ header_words header }
    ensures upper_bound { length text.new ≤ length text.old + 51 }
{
    text.field(b"type ", header.message_type as u64);
    text.word(b" pad ");
    text.signed(header.pad);
}

// S, PTPType and sequence.
fn sub_tlv_words(text: &mut Text, sub_tlv: SubTlv)
    requires { length text.old + 74 ≤ ROOM }
    ensures value { text.new ≡ text.old ++ sub_tlv_words sub_tlv }
    ensures upper_bound { length text.new ≤ length text.old + 74 }
{
    text.field(b" s ", sub_tlv.two_step as u64);
    text.field(b" kind ", sub_tlv.ptp_type as u64);
    text.field(b" seq ", sub_tlv.sequence as u64);
}

// The line of types 1 and 5.
fn plain_line(header: Header, carried: usize) -> Text
    ensures { result ≡ line_by carried (read (Plain header)) }
{
    let mut text = Text::new();
    header_words(&mut text, header);
    text.word(b" s - kind - seq -");
    text.last(b" carried ", carried as u64);
    text
}

// The line of types 2 to 4.
fn ptp_line(header: Header, sub_tlv: SubTlv, carried: usize) -> Text
    ensures { result ≡ line_by carried (read (Ptp header sub_tlv)) }
{
    let mut text = Text::new();
    header_words(&mut text, header);
    sub_tlv_words(&mut text, sub_tlv);
    text.last(b" carried ", carried as u64);
    text
}

fn message_text(message: &[u8]) -> Text
    ensures { result ≡ line_of message.now }
{
    let carried = reader::carried(message).len();
    match reader::read(message) {
        Ok(Message::Plain(header)) => plain_line(header, carried),
        Ok(Message::Ptp(header, sub_tlv)) => ptp_line(header, sub_tlv, carried),
        Err(refusal) => Text::refused(refusal),
    }
}

/// The line of a message, at the start of out; answers its length. Octets of out beyond it stay.
pub fn line(message: &[u8], out: &mut [u8; ROOM]) -> usize
    ensures out_after { take result out.new ≡ line_of message.now }
    ensures out_unchanged { drop result out.new ≡ drop result out.old }
    ensures prefix_len { IsPrefixLen result out.new }
{
    message_text(message).copy_to(out)
}

/// Prints the line of a message, and answers how many octets it has. A write that fails is not told.
pub fn print(rt: &impl Print, message: &[u8]) -> usize
    ensures { result ≡ length (line_of message.now) }
{
    message_text(message).print(rt)
}

/// Reads a message from standard input, prints its line, and answers how many octets it read.
pub fn show(rt: &(impl Input + Print)) -> usize
    ensures { result ≤ 2049 }
{
    program::run(rt, &mut [0; MOST], |message| print(rt, message))
}

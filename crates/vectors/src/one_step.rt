// Operations 4 and 15: a message at a one-step node.
use crate::case;
use crate::shown::Octets;
use crate::stamps::Format;
use print::{Told, Word};
use std::io;

pub(crate) fn run(rt: &impl Print, format: Format, body: &[u8]) -> io::Result<()> {
    let (message, _) = case::counted(case::after(body, 16));
    let mut buffer = [0; case::MOST];
    let message = case::copied(&mut buffer, message);
    let told = Told(rtm::one_step(message, format.read(body)).map(Word));
    println!(rt; "one-step{format} {told} message {}", Octets(message))
}

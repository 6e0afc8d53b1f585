// The refusals (document 01, Refusal numbers), each with the operations that give it. A refusal is
// the error of every operation's `Result`; C is told its number.
#![tactic(auto)]

ghost use Rattle.std.specs.Prelude.{◌≡◌};

use std::error::Error;
use std::fmt;

/// Why an operation was refused. Its number is its place in document 01's table.
#[derive(Clone, Copy, Debug, PartialEq, Eq, Hash)]
pub enum Refusal {
    // 1 to 8: reading a message, and with it every node call, joining and correcting. 2, 6 and 7 also
    // writing one.
    TooShort = 1,
    TooLong = 2,
    NotRtm = 3,
    Version = 4,
    Length = 5,
    Type = 6,
    ValueSize = 7,
    SubTlv = 8,

    // 9, 10: the residence between two stamps; the node calls that take one: at a one-step node those that
    // update, at a two-step node a Sync and a Delay_Req. 10 also the plan of a path, for a hop's residence.
    InvalidStamp = 9,
    TooLongResidence = 10,

    // 11: joining, and with it correcting. It is withdrawn at nodes (document 02, W-210): no node call
    // gives it.
    SumOutOfRange = 11,

    // 12: writing a message, an image or label entries; converting an image; a two-step node, for a Sync
    // with S clear.
    OutputTooSmall = 12,

    // 13, 14: adding a record to the table; a two-step node, for a Sync with S set and for a Delay_Req.
    AlreadyWaiting = 13,
    NoEmptySlot = 14,

    // 15: collecting one; a two-step node, for a Follow_Up and for a Delay_Resp.
    NoRecord = 15,

    // 16: a two-step node, for a message that it cannot time.
    NotForTwoStep = 16,

    // 17, 23: writing a message.
    PtpType = 17,

    // 18: joining, and with it correcting.
    NotAPair = 18,

    // 19 to 21: an address list, and the hops and RTM_SET from which the next TTL is found.
    ListTooLong = 19,
    BadEntry = 20,
    NoEntry = 21,

    // 22: writing, loading or converting an image of the table.
    Image = 22,

    SubTlvLength = 23,

    // 24: the TTL for the next timing node, and the label entries with it.
    NoTimingNode = 24,

    // 25: the label entries.
    Label = 25,

    // 26: running a capture again.
    Capture = 26,

    // 27: converting an image that holds a Delay record to the old form.
    DelayRecord = 27,

    // 28, 29: the plan of a path, for its number of hops and for a hop's mode.
    TooManyHops = 28,
    Mode = 29,

    // 30 to 33: correcting the packet of a joined pair, for its copy, for the place of its PTPv2 header,
    // for what that header says, and for its new correctionField.
    NotACopy = 30,
    NoPtpHeader = 31,
    PtpHeaderMismatch = 32,
    CorrectionOutOfRange = 33,
}

impl Refusal {
    ghost use Rattle.refusal.specs.Refusal.{number_of};

    /// Its number in document 01's table, 1 to 33.
    pub fn number(self) -> u8
        ensures { result ≡ number_of self }
    {
        self as u8
    }
}

impl fmt::Display for Refusal {
    ghost use Rattle.std.specs.Prelude.{Some};
    ghost use Rattle.refusal.specs.Refusal.{words_of};

    ghost output = { λ refusal. Some (words_of refusal) };

    fn fmt<W: fmt::Write>(&self, f: &mut fmt::Formatter<W>) -> fmt::Result {
        write!(f, "refused {}", self.number())
    }
}

impl Error for Refusal {}

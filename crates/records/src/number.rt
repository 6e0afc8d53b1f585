// The number that a table keeps of its records (document 02, W-206): how it is read, and what is
// written where a record is added or slots are emptied. All else leaves it as it came.
ghost use Rattle.std.specs.Prelude.{◌≡◌};
ghost use Rattle.records.specs.Number.{read_number, one_more, fewer};

// The most records that a table can hold.
const SLOTS: u8 = 16;

/// The number as it is read: 16 where it is over 16.
pub fn read(number: u8) -> u8
    ensures { result ≡ read_number number }
{
    number.min(SLOTS)
}

/// The number after a record was added.
pub fn one_more(number: u8) -> u8
    ensures { result ≡ one_more number }
{
    read(read(number) + 1)
}

/// The number after so many slots were emptied; after none it is as it came.
pub fn fewer(emptied: u8, number: u8) -> u8
    ensures { result ≡ fewer emptied number }
{
    if emptied == 0 {
        return number;
    }
    read(number).saturating_sub(emptied)
}

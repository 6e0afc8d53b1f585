// The text that a program prints, put together word by word. It is no `Display`: that may fail, and what
// it says then is open, where printing here answers the length of the whole text.
ghost use Rattle.std.specs.Prelude.{◌≡◌, ◌++◌, ◌+◌, ◌≤◌, ℕ, List, [], length, take, drop};
ghost use Rattle.io.specs.Counts.{IsPrefixLen};
ghost use Rattle.io.specs.Digits.{last_digits};
ghost use Rattle.refusal.specs.Refusal.{number_of};
ghost use Rattle.line.specs.declared.TheConstants.{ROOM};
ghost use Rattle.line.specs.Line.{decimal, signed_decimal, newline, refused_word};

use crate::ROOM;
use refusal::Refusal;
use std::marker::Model;

// A clause sees it as the octets put so far.
#[derive(Drop)]
pub(crate) struct Text {
    octets: [u8; ROOM],
    end: usize,
}

impl Model for Text {
    ghost Value = { List ℕ };

    ghost view = { λ t. take t.end t.octets };

    ghost invariant = { λ t. t.end ≤ ROOM };
}

impl Text {
    pub(crate) fn new() -> Text
        ensures { result ≡ [] }
    {
        Text {
            octets: [0; ROOM],
            end: 0,
        }
    }

    // The text of one word.
    pub(crate) fn of(word: &[u8]) -> Text
        requires { length word.now ≤ ROOM }
        ensures { result ≡ word.now }
    {
        let mut text = Text::new();
        text.word(word);
        text
    }

    // The line of a refusal.
    pub(crate) fn refused(refusal: Refusal) -> Text
        ensures { result ≡ refused_word ++ decimal (number_of refusal) ++ newline }
    {
        let mut text = Text::new();
        text.last(b"refused ", refusal.number() as u64);
        text
    }

    // A word as it is.
    pub(crate) fn word(&mut self, word: &[u8])
        requires { length self.old + length word.now ≤ ROOM }
        ensures value { self.new ≡ self.old ++ word.now }
        ensures size { length self.new ≡ length self.old + length word.now }
    {
        octets::put(&mut self.octets, self.end, word);
        self.end += word.len();
    }

    // A number in decimal.
    pub(crate) fn number(&mut self, n: u64)
        requires { length self.old + 20 ≤ ROOM }
        ensures value { self.new ≡ self.old ++ decimal n }
        ensures upper_bound { length self.new ≤ length self.old + 20 }
    {
        let mut digits = [0u8; 20];
        let count = io::decimal(n, &mut digits);
        self.word(&digits[..count]);
    }

    // A signed number in decimal.
    pub(crate) fn signed(&mut self, z: i64)
        requires { length self.old + 21 ≤ ROOM }
        ensures value { self.new ≡ self.old ++ signed_decimal z }
        ensures upper_bound { length self.new ≤ length self.old + 21 }
    {
        if z < 0 {
            self.word(b"-");
        }
        self.number(z.unsigned_abs());
    }

    // A number in 16 hexadecimal digits. Beside `number`, since `io` has a function and an array for each
    // base, and one that takes both is longer.
    pub(crate) fn hex(&mut self, n: u64)
        requires { length self.old + 16 ≤ ROOM }
        ensures value { self.new ≡ self.old ++ last_digits 16 16 n }
        ensures upper_bound { length self.new ≤ length self.old + 16 }
    {
        let mut digits = [0u8; 16];
        let count = io::hex(n, 16, &mut digits);
        self.word(&digits[..count]);
    }

    // A word and the number behind it.
    pub(crate) fn field(&mut self, word: &[u8], n: u64)
        requires { length self.old + length word.now + 20 ≤ ROOM }
        ensures value { self.new ≡ self.old ++ (word.now ++ decimal n) }
        ensures upper_bound { length self.new ≤ length self.old + length word.now + 20 }
    {
        self.word(word);
        self.number(n);
    }

    // The last field of a line, with its newline.
    pub(crate) fn last(&mut self, word: &[u8], n: u64)
        requires { length self.old + length word.now + 21 ≤ ROOM }
        ensures value { self.new ≡ self.old ++ (word.now ++ decimal n ++ newline) }
        ensures upper_bound { length self.new ≤ length self.old + length word.now + 21 }
    {
        self.field(word, n);
        self.word(b"\n");
    }

    pub(crate) fn octets(&self) -> &[u8]
        ensures { result.now ≡ self.now }
    {
        &self.octets[..self.end]
    }

    // Puts the text at the start of out, and answers how many octets it has. Octets of out beyond it
    // stay.
    pub(crate) fn copy_to(&self, out: &mut [u8; ROOM]) -> usize
        ensures out_after { take result out.new ≡ self.now }
        ensures out_unchanged { drop result out.new ≡ drop result out.old }
        ensures prefix_len { IsPrefixLen result out.new }
    {
        octets::put(out, 0, self.octets());
        self.end
    }

    // Prints the text, and answers how many octets it has.
    pub(crate) fn print(&self, rt: &impl Print) -> usize
        ensures { result ≡ length self.now }
    {
        let octets = self.octets();
        let _ = rt.write_all(octets);
        octets.len()
    }
}

//! Lines of a report.

ghost use Rattle.std.specs.Prelude.{◌≡◌, ◌+◌, ◌≤◌, ◌++◌, [], length, codes, decimal};
ghost use Rattle.std.specs.Fmt.{signed_decimal};

use itoa::{Buffer, write_digits};
use std::marker::Model;

/// A line that is made from its end to its start: each piece goes before the pieces that it has.
///
/// So the digits of a number are written where they stay, however many they are.
#[derive(Drop)]
pub struct Line {
    bytes: [u8; Line::ROOM],
    start: usize,
}

impl Model for Line {
    ghost use Rattle.std.specs.Prelude.{ℕ, List, drop, ◌≤◌};
    ghost use Rattle.sab_report_text.specs.declared.text.line.TheConstants.Line.{ROOM};

    ghost Value = { List ℕ };

    ghost view = { λ s. drop s.start s.bytes };

    ghost invariant = { λ s. s.start ≤ ROOM };
}

impl Line {
    /// How many bytes it has room for.
    pub const ROOM: usize = 128;

    /// A line of no bytes.
    pub fn new() -> Line
        ensures { result ≡ [] }
    {
        Line {
            bytes: [0; Self::ROOM],
            start: Self::ROOM,
        }
    }

    /// Its bytes.
    pub fn bytes(&self) -> &[u8]
        ensures bytes { result.now ≡ self.now }
        ensures len { length result.now ≤ Line.ROOM }
    {
        &self.bytes[self.start..]
    }

    /// Prepends a text.
    pub fn prepend(&mut self, text: &[u8])
        requires { length text.now + length self.old ≤ Line.ROOM }
        ensures { self.new ≡ text.now ++ self.old }
    {
        let end = self.start;
        let start = end - text.len();
        self.bytes[start..end].copy_from_slice(text);
        self.start = start;
    }

    /// Prepends a number, in decimal: at most 20 bytes.
    pub fn prepend_number(&mut self, n: u64)
        requires { 20 + length self.old ≤ Line.ROOM }
        ensures bytes { self.new ≡ decimal n ++ self.old }
        ensures len { length self.new ≤ 20 + length self.old }
    {
        self.start = write_digits(n, &mut self.bytes, self.start);
    }

    /// Prepends a number and a space.
    pub fn prepend_field(&mut self, n: u64)
        requires { 21 + length self.old ≤ Line.ROOM }
        ensures bytes { self.new ≡ decimal n ++ (codes " " ++ self.old) }
        ensures len { length self.new ≤ 21 + length self.old }
    {
        self.prepend(b" ");
        self.prepend_number(n);
    }

    /// Prepends a whole number, in decimal: at most 40 bytes.
    pub fn prepend_whole(&mut self, n: i128)
        requires { 40 + length self.old ≤ Line.ROOM }
        ensures bytes { self.new ≡ signed_decimal n ++ self.old }
        ensures len { length self.new ≤ 40 + length self.old }
    {
        let Ok(magnitude) = u64::try_from(n.unsigned_abs()) else {
            self.prepend(Buffer::new().format(n).as_bytes());
            return;
        };
        self.prepend_number(magnitude);
        if n < 0 {
            self.prepend(b"-");
        }
    }
}

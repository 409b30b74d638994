//! Lines, and where they end.

ghost use Rattle.std.specs.Prelude.{◌≡◌, ◌+◌, ◌<◌, ◌≤◌, ◌++◌, ◌∷◌, [], length, IfSome, IfNone, IfErr, OnOk};
ghost use Rattle.sab_trace.specs.Lines.{HasNoLineFeed};

use crate::line_fault::LineFault;
use memchr::memchr;
use std::marker::Model;

/// How many bytes a line can have, its line feed not counted.
pub const MAX_LINE: usize = 1_024;

// The clauses cite the constant: so its number is held here.
const _: () = prove!(MAX_LINE == 1_024);

/// The bytes before the first line feed, and those behind it; none, where there is no line feed.
pub(crate) fn split_line(bytes: &[u8]) -> Option<(&[u8], &[u8])>
    ensures some { IfSome result (λ p. HasNoLineFeed p.0.now × (bytes.now ≡ p.0.now ++ 10 ∷ p.1.now)) }
    ensures none { IfNone result (HasNoLineFeed bytes.now) }
    ensures shorter { IfSome result (λ p. length p.1.now < length bytes.now) }
{
    let end = memchr(b'\n', bytes)?;
    Some((&bytes[..end], &bytes[end + 1..]))
}

/// The bytes of a line that were read so far.
#[derive(Drop)]
pub(crate) struct Line {
    bytes: [u8; MAX_LINE],
    len: usize,
}

impl Model for Line {
    ghost use Rattle.std.specs.Prelude.{ℕ, List, take, ◌≤◌};

    ghost Value = { List ℕ };

    ghost view = { λ s. take s.len s.bytes };

    ghost invariant = { λ s. s.len ≤ 1024 };
}

impl Line {
    /// A line of no bytes.
    pub(crate) fn new() -> Line
        ensures { result ≡ [] }
    {
        Line {
            bytes: [0; MAX_LINE],
            len: 0,
        }
    }

    /// Its bytes.
    pub(crate) fn bytes(&self) -> &[u8]
        ensures bytes { result.now ≡ self.now }
        ensures short { length self.now ≤ 1024 }
    {
        &self.bytes[..self.len]
    }

    /// Empties it.
    pub(crate) fn clear(&mut self)
        ensures { self.new ≡ [] }
    {
        self.len = 0;
    }

    /// Appends bytes; TooLong, where it would have more bytes than a line can have.
    pub(crate) fn push(&mut self, piece: &[u8]) -> Result<(), LineFault>
        ensures ok { OnOk result (self.new ≡ self.old ++ piece.now) }
        ensures short { OnOk result (length self.new ≤ 1024) }
        ensures err { IfErr result (λ fault. (fault ≡ LineFault.TooLong)
            × (1024 < length self.old + length piece.now)) }
    {
        let start = self.len;
        if MAX_LINE - start < piece.len() {
            return Err(LineFault::TooLong);
        }
        let end = start + piece.len();
        self.bytes[start..end].copy_from_slice(piece);
        self.len = end;
        Ok(())
    }
}

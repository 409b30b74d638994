//! The starts of texts, shown safely.

ghost use Rattle.std.specs.Prelude.{◌≤◌};

use std::fmt;

/// The first bytes of a text, at most 32, and whether there are more.
#[derive(Clone, Copy, Debug)]
pub struct Excerpt {
    bytes: [u8; Excerpt::ROOM],
    len: usize,
    is_cut: bool,
    ghost in_range: { len ≤ 32 },
}

impl Excerpt {
    ghost use Rattle.std.specs.Prelude.{◌≡◌, ◌<◌, ◌↔◌, take, length, IsTrue};
    ghost use Rattle.sab_refusal.specs.Excerpt.{bytes_of, is_cut_of};

    /// How many bytes it can have.
    pub const ROOM: usize = 32;

    /// The start of a text.
    pub fn of(text: &str) -> Excerpt
        ensures bytes { bytes_of result ≡ take Excerpt.ROOM text.now }
        ensures cut { IsTrue (is_cut_of result) ↔ (Excerpt.ROOM < length text.now) }
    {
        let text = text.as_bytes();
        let is_cut = Self::ROOM < text.len();
        let len = if is_cut { Self::ROOM } else { text.len() };
        let mut bytes = [0; Self::ROOM];
        bytes[..len].copy_from_slice(&text[..len]);
        Excerpt { bytes, len, is_cut }
    }
}

impl fmt::Display for Excerpt {
    ghost use Rattle.std.specs.Prelude.{Some};
    ghost use Rattle.sab_refusal.specs.Excerpt.{excerpt_text};

    ghost output = { λ excerpt. Some (excerpt_text excerpt) };

    fn fmt<W: fmt::Write>(&self, f: &mut fmt::Formatter<W>) -> fmt::Result {
        f.write_str("\"")?;
        f.write(Bare(*self))?;
        f.write_str(if self.is_cut { "\".." } else { "\"" })
    }
}

/// The first bytes of a text, shown without quotes.
#[derive(Clone, Copy, Debug)]
pub(crate) struct Bare(pub(crate) Excerpt);

impl Bare {
    ghost use Rattle.std.specs.Fmt.{WritesOnOk};
    ghost use Rattle.sab_refusal.specs.Excerpt.{shown};

    /// Writes a byte as it is shown.
    fn write_byte<W: fmt::Write>(f: &mut fmt::Formatter<W>, byte: u8) -> fmt::Result
        ensures { WritesOnOk W.write_str_gives f.old result (shown byte) f.new }
    {
        if (byte.is_ascii_graphic() || byte == b' ') && byte != b'"' && byte != b'\\' {
            return f.write_char(char::from(byte));
        }
        let (high, low) = (byte / 16, byte % 16);
        write!(f, "\\x{high:x}{low:x}")
    }
}

impl fmt::Display for Bare {
    ghost use Rattle.std.specs.Prelude.{Some};
    ghost use Rattle.sab_refusal.specs.Excerpt.{bare_text};

    ghost output = { λ bare. Some (bare_text bare.0) };

    fn fmt<W: fmt::Write>(&self, f: &mut fmt::Formatter<W>) -> fmt::Result {
        let excerpt = self.0;
        for byte in &excerpt.bytes[..excerpt.len] {
            Bare::write_byte(f, *byte)?;
        }
        Ok(())
    }
}

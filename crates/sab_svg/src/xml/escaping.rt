//! Texts as they stand between the tags of XML, and between quotation marks.

ghost use Rattle.std.specs.Prelude.{◌≡◌, ◌+◌, ◌*◌, ◌≤◌, ◌++◌, false, length};
ghost use Rattle.sab_svg.specs.Xml.Xml.{char_text, is_plain, reference, text_of};

use itoa::Buffer;
use sab_report_text::text::Chunk;

/// The number of the replacement character, which stands for control characters: a document can hold few of them.
const REPLACEMENT: u16 = 0xfffd;

/// Appends a text, each character as XML writes it: itself, or a reference; 8 bytes at most for each.
///
/// A byte above 126 is the character of that number, and a control character other than the line feed becomes the
/// replacement character. What stands for itself from one reference to the next is copied at once.
pub fn push_escaped(text: &[u8], chunk: &mut Chunk)
    requires { length chunk.old + 8 * length text.now ≤ Chunk.ROOM }
    ensures bytes { chunk.new ≡ chunk.old ++ text_of text.now }
    ensures len { length chunk.new ≤ length chunk.old + 8 * length text.now }
{
    let mut start = 0;
    for (i, &byte) in text.iter().enumerate() {
        if !stands_for_itself(byte) {
            chunk.push(&text[start..i]);
            push_reference(byte, chunk);
            start = i + 1;
        }
    }
    chunk.push(&text[start..]);
}

/// Whether a text has this character as it is.
fn stands_for_itself(byte: u8) -> bool
    ensures { result ≡ is_plain byte }
{
    matches!(byte, b'\n' | b' '..=b'~') && !matches!(byte, b'<' | b'>' | b'&' | b'"')
}

/// Appends the reference that stands for a character.
#[tactic(auto, unfolding(crate::specs::Xml::Xml::char_text))]
fn push_reference(byte: u8, chunk: &mut Chunk)
    requires plain { is_plain byte ≡ false }
    requires room { length chunk.old + 8 ≤ Chunk.ROOM }
    ensures bytes { chunk.new ≡ chunk.old ++ char_text byte }
    ensures len { length chunk.new ≤ length chunk.old + 8 }
{
    match byte {
        b'<' => chunk.push(b"&lt;"),
        b'>' => chunk.push(b"&gt;"),
        b'&' => chunk.push(b"&amp;"),
        b'"' => chunk.push(b"&quot;"),
        127.. => push_numbered(u16::from(byte), chunk),
        _ => push_numbered(REPLACEMENT, chunk),
    }
}

/// Appends the reference to a character by its number.
#[tactic(auto, using(crate::proofs::OfXml::Texts::short_number))]
fn push_numbered(number: u16, chunk: &mut Chunk)
    requires { length chunk.old + 8 ≤ Chunk.ROOM }
    ensures bytes { chunk.new ≡ chunk.old ++ reference number }
    ensures len { length chunk.new ≤ length chunk.old + 8 }
{
    chunk.push(b"&#");
    chunk.push(Buffer::new().format(number).as_bytes());
    chunk.push(b";");
}

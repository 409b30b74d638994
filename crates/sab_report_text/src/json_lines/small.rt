//! Numbers that mostly have one digit.

ghost use Rattle.std.specs.Prelude.{◌≡◌, ◌+◌, ◌≤◌, ◌++◌, length, decimal};

use crate::text::Chunk;

/// Appends a number, in decimal, as [`Chunk::push_number`] does: at most 20 bytes. It is sooner done where the number
/// has one digit, as that of an agent, a block or a count mostly has.
#[tactic(auto, using(std::proofs::lemmas::Fmt::decimal_digit))]
pub fn push_small(n: u32, chunk: &mut Chunk)
    requires { length chunk.old + 20 ≤ Chunk.ROOM }
    ensures bytes { chunk.new ≡ chunk.old ++ decimal n }
    ensures len { length chunk.new ≤ length chunk.old + 20 }
{
    if n < 10 {
        chunk.push(&[b'0' + n as u8]);
    } else {
        chunk.push_number(u64::from(n));
    }
}

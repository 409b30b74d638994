//! Operands, and the raw elements that they are written as and read from.

ghost use Rattle.std.specs.Prelude.{◌≡◌, ◌+◌, ◌*◌, ◌^◌, ◌<◌, ◌≤◌, Ok, Err, true, false, IsTrue, IfOk, IfSome};
ghost use Rattle.std.specs.Prelude.{MatchBool, SomeIff};
ghost use Rattle.sab_block.specs.Kind.{is_atomic, raw_count};
ghost use Rattle.sab_block.specs.declared.thrown.Thrown.TheVariants.{TypeError};
ghost use Rattle.sab_block.specs.Operand.{IsSafeInteger, whole_of, agrees, raw, value, operand};

use crate::kind::Kind;
use crate::thrown::Thrown;
use std::fmt;

/// A Number or a BigInt that is whole: what a call is handed, and the value that it returns.
#[derive(Clone, Copy, PartialEq, Eq)]
pub struct Operand {
    big: bool,
    // The whole number as the bytes of an i128, lowest first. An i128 lies at a multiple of 16 bytes, and an entry of a
    // journal with one in it would be two and a half times as long.
    bytes: [u8; 16],
}

impl Operand {
    ghost use Rattle.sab_block.specs.Operand.{operand_of, number_operand, bigint_operand, is_bigint};

    /// The greatest safe integer, 2^53 - 1 (Number.MAX_SAFE_INTEGER); its negative is the least.
    pub const MAX_SAFE_INTEGER: i64 = 9_007_199_254_740_991;

    /// The Number `v`, or `None` exactly where `v` is no safe integer.
    #[tactic(auto, using(crate::proofs::WholeNumbers::kept))]
    pub fn number(v: i64) -> Option<Operand>
        ensures value { SomeIff result (IsSafeInteger v) (number_operand v) }
        ensures whole { IfSome result (λ x. whole_of x ≡ v) }
    {
        if v < -Self::MAX_SAFE_INTEGER || Self::MAX_SAFE_INTEGER < v {
            return None;
        }
        Some(Operand::of(false, i128::from(v)))
    }

    /// The BigInt `v`.
    #[tactic(auto, using(crate::proofs::WholeNumbers::kept))]
    pub fn big(v: i128) -> Operand
        ensures value { result ≡ bigint_operand v }
        ensures whole { whole_of result ≡ v }
    {
        Operand::of(true, v)
    }

    /// Whether it is a BigInt, and not a Number.
    pub fn is_big(self) -> bool
        ensures { result ≡ is_bigint self }
    {
        self.big
    }

    /// The whole number that it is.
    #[tactic(auto, unfolding(crate::specs::Operand::whole_of))]
    pub fn whole(self) -> i128
        ensures { result ≡ whole_of self }
    {
        i128::from_le_bytes(self.bytes)
    }

    /// The BigInt or the Number `whole`.
    #[tactic(auto, unfolding(crate::specs::Operand::bytes_of))]
    fn of(big: bool, whole: i128) -> Operand
        ensures { result ≡ operand_of big whole }
    {
        Operand {
            big,
            bytes: whole.to_le_bytes(),
        }
    }
}

/// It shows the whole number, and not the bytes.
impl fmt::Debug for Operand {
    fn fmt<W: fmt::Write>(&self, f: &mut fmt::Formatter<W>) -> fmt::Result {
        f.debug_struct("Operand")
            .field("big", &self.big)
            .field("whole", &self.whole())
            .finish()
    }
}

/// Whether `v` is a BigInt exactly if the elements of the kind are (ToBigInt, ToIntegerOrInfinity).
pub fn agrees(kind: Kind, v: Operand) -> bool
    ensures { result ≡ agrees kind v }
{
    v.big == kind.is_big()
}

/// The raw element that `v` is written as in an element of the kind: `v` modulo 2^(8 × size) (NumericToRawBytes).
///
/// TypeError exactly where one of `v` and the kind is BigInt and the other isn't (ToBigInt, ToIntegerOrInfinity).
pub fn to_raw(kind: Kind, v: Operand) -> Result<u64, Thrown>
    requires { IsTrue (is_atomic kind) }
    ensures value { MatchBool (agrees kind v) (result ≡ Ok (raw kind (whole_of v))) (result ≡ Err TypeError) }
    ensures fits { IfOk result (λ r. r < raw_count kind) }
{
    if !agrees(kind, v) {
        return Err(Thrown::TypeError);
    }
    Ok(wrapped(kind, v.whole()))
}

/// The operand that a raw element of the kind, below 2^(8 × size), is read as (RawBytesToNumeric).
#[tactic(auto, using(crate::proofs::WholeNumbers::kept))]
pub fn from_raw(kind: Kind, raw: u64) -> Operand
    requires atomic { IsTrue (is_atomic kind) }
    requires fits { raw < raw_count kind }
    ensures value { result ≡ operand kind raw }
    ensures whole { whole_of result ≡ value kind raw }
{
    Operand::of(kind.is_big(), unwrapped(kind, raw))
}

/// The raw element that a whole number is written as in an element of the kind, whether or not its elements are
/// BigInts: the number's low bits, as many as an element has (NumericToRawBytes).
///
/// The kind is one that the functions of `Atomics` take: of clamped and float kinds the standard says otherwise.
#[tactic(auto, using(crate::proofs::RawElements::wraps))]
pub fn wrapped(kind: Kind, v: i128) -> u64
    requires { IsTrue (is_atomic kind) }
    ensures value { result ≡ raw kind v }
    ensures fits { result < raw_count kind }
{
    (v.cast_unsigned() & u128::from(kind.max_raw())) as u64
}

/// The whole number that the bits of an element stand for, by two's complement where the kind is signed.
fn unwrapped(kind: Kind, raw: u64) -> i128
    requires { raw < raw_count kind }
    ensures { result ≡ value kind raw }
{
    let whole = i128::from(raw);
    let max_raw = kind.max_raw();
    if kind.is_signed() && max_raw / 2 < raw {
        return whole - i128::from(max_raw) - 1;
    }
    whole
}

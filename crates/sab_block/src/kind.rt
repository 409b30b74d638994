//! The kinds of elements.

ghost use Rattle.std.specs.Prelude.{◌≡◌, ◌+◌, ◌-◌, ◌*◌, ◌^◌, ◌<◌, ◌≤◌, length};
ghost use Rattle.sab_block.specs.Kind.{element_size, is_signed, is_big, is_atomic, is_waitable, kind_name, raw_count};

use std::fmt;

/// The kind of a typed array's elements: an element type of the standard's table "The TypedArray Constructors".
#[derive(Clone, Copy, Debug, PartialEq, Eq)]
pub enum Kind {
    Int8,
    Uint8,
    /// Eight bits whose writes are clamped, which no function of `Atomics` takes.
    Uint8Clamped,
    Int16,
    Uint16,
    Int32,
    Uint32,
    /// A float, which no function of `Atomics` takes.
    Float32,
    /// A float, which no function of `Atomics` takes.
    Float64,
    BigInt64,
    BigUint64,
}

impl Kind {
    /// The element size in bytes: 1, 2, 4 or 8 (TypedArrayElementSize).
    pub fn size(self) -> u32
        ensures { result ≡ element_size self }
    {
        match self {
            Kind::Int8 | Kind::Uint8 | Kind::Uint8Clamped => 1,
            Kind::Int16 | Kind::Uint16 => 2,
            Kind::Int32 | Kind::Uint32 | Kind::Float32 => 4,
            Kind::Float64 | Kind::BigInt64 | Kind::BigUint64 => 8,
        }
    }

    /// Whether a raw element is read as a signed number (IsUnsignedElementType); of a float it is false, and not used.
    pub fn is_signed(self) -> bool
        ensures { result ≡ is_signed self }
    {
        matches!(
            self,
            Kind::Int8 | Kind::Int16 | Kind::Int32 | Kind::BigInt64
        )
    }

    /// Whether the elements are BigInts, and not Numbers (IsBigIntElementType).
    pub fn is_big(self) -> bool
        ensures { result ≡ is_big self }
    {
        matches!(self, Kind::BigInt64 | Kind::BigUint64)
    }

    /// Whether the functions of `Atomics` take it (ValidateIntegerTypedArray, IsUnclampedIntegerElementType).
    pub fn is_atomic(self) -> bool
        ensures { result ≡ is_atomic self }
    {
        !matches!(self, Kind::Uint8Clamped | Kind::Float32 | Kind::Float64)
    }

    /// Whether `Atomics.wait` and `Atomics.notify` take it (ValidateIntegerTypedArray, where waitable is true).
    pub fn is_waitable(self) -> bool
        ensures { result ≡ is_waitable self }
    {
        matches!(self, Kind::Int32 | Kind::BigInt64)
    }

    /// The name of its typed array's constructor, without `Array` (table "The TypedArray Constructors").
    pub fn name(self) -> &'static str
        ensures name { result.now ≡ kind_name self }
        ensures len { length result.now ≤ 12 }
    {
        match self {
            Kind::Int8 => "Int8",
            Kind::Uint8 => "Uint8",
            Kind::Uint8Clamped => "Uint8Clamped",
            Kind::Int16 => "Int16",
            Kind::Uint16 => "Uint16",
            Kind::Int32 => "Int32",
            Kind::Uint32 => "Uint32",
            Kind::Float32 => "Float32",
            Kind::Float64 => "Float64",
            Kind::BigInt64 => "BigInt64",
            Kind::BigUint64 => "BigUint64",
        }
    }

    /// The greatest raw element, whose bits are all ones.
    pub(crate) fn max_raw(self) -> u64
        ensures { result + 1 ≡ raw_count self }
    {
        match self.size() {
            1 => 0xff,
            2 => 0xffff,
            4 => 0xffff_ffff,
            _ => 0xffff_ffff_ffff_ffff,
        }
    }
}

/// Its text is its name.
impl fmt::Display for Kind {
    ghost use Rattle.std.specs.Prelude.{Some};
    ghost use Rattle.sab_block.specs.Kind.{kind_name};

    ghost output = { λ kind. Some (kind_name kind) };

    fn fmt<W: fmt::Write>(&self, f: &mut fmt::Formatter<W>) -> fmt::Result {
        f.write_str(self.name())
    }
}

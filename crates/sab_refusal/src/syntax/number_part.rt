//! How far a number has come.

/// The part of a number that its last byte belongs to.
#[derive(Clone, Copy)]
pub(crate) enum NumberPart {
    /// The minus.
    Minus,
    /// The only digit before the point, 0.
    Zero,
    /// The digits before the point.
    Whole,
    /// The point.
    Point,
    /// The digits behind the point.
    Fraction,
    /// The `e` or `E`.
    Power,
    /// The sign of the exponent.
    Sign,
    /// The digits of the exponent.
    Exponent,
}

impl NumberPart {
    ghost use Rattle.std.specs.Prelude.{◌≡◌};
    ghost use Rattle.sab_refusal.specs.Syntax.Number.{first_part, part_behind, is_complete};

    /// The part of a number's first byte.
    pub fn at(byte: u8) -> Option<NumberPart>
        ensures { result ≡ first_part byte }
    {
        if byte == b'-' {
            return Some(NumberPart::Minus);
        }
        if byte == b'0' {
            return Some(NumberPart::Zero);
        }
        if byte.is_ascii_digit() {
            return Some(NumberPart::Whole);
        }
        None
    }

    /// The part of the byte behind it, if the number goes on with it.
    pub fn behind(self, byte: u8) -> Option<NumberPart>
        ensures { result ≡ part_behind self byte }
    {
        match self {
            NumberPart::Minus if byte == b'0' => Some(NumberPart::Zero),
            NumberPart::Minus => digit(byte, NumberPart::Whole),
            NumberPart::Zero => point_or_power(byte),
            NumberPart::Whole if byte.is_ascii_digit() => Some(NumberPart::Whole),
            NumberPart::Whole => point_or_power(byte),
            NumberPart::Point => digit(byte, NumberPart::Fraction),
            NumberPart::Fraction if byte.is_ascii_digit() => Some(NumberPart::Fraction),
            NumberPart::Fraction => power(byte),
            NumberPart::Power if byte == b'-' || byte == b'+' => Some(NumberPart::Sign),
            NumberPart::Power | NumberPart::Sign | NumberPart::Exponent => {
                digit(byte, NumberPart::Exponent)
            }
        }
    }

    /// Whether the number can end with it.
    pub fn is_complete(self) -> bool
        ensures { result ≡ is_complete self }
    {
        match self {
            NumberPart::Zero | NumberPart::Whole | NumberPart::Fraction | NumberPart::Exponent =>
                true,
            NumberPart::Minus | NumberPart::Point | NumberPart::Power | NumberPart::Sign => false,
        }
    }
}

ghost use Rattle.std.specs.Prelude.{◌≡◌};
ghost use Rattle.sab_refusal.specs.Syntax.Number.{digit_to, power_to, point_or_power_to};

/// A part, if the byte is a digit.
fn digit(byte: u8, part: NumberPart) -> Option<NumberPart>
    ensures { result ≡ digit_to byte part }
{
    if byte.is_ascii_digit() {
        Some(part)
    } else {
        None
    }
}

/// The part of an `e` or `E`.
fn power(byte: u8) -> Option<NumberPart>
    ensures { result ≡ power_to byte }
{
    if byte == b'e' || byte == b'E' {
        Some(NumberPart::Power)
    } else {
        None
    }
}

/// The part of a point, or of an `e` or `E`.
fn point_or_power(byte: u8) -> Option<NumberPart>
    ensures { result ≡ point_or_power_to byte }
{
    if byte == b'.' {
        Some(NumberPart::Point)
    } else {
        power(byte)
    }
}

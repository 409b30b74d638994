//! Numbers that are drawn from a seed.

ghost use Rattle.std.specs.Prelude.{◌≡◌, ◌<◌};
ghost use Rattle.sab_race.specs.Mixing.{folded, stirred, drawn};

/// The number with its high bits folded down by so many places.
fn fold(number: u64, places: u32) -> u64
    requires { places < 64 }
    ensures { result ≡ folded number places }
{
    number ^ (number >> places)
}

/// The number with its bits stirred, as SplitMix64 does.
fn stir(number: u64) -> u64
    ensures { result ≡ stirred number }
{
    let once = fold(number, 30).wrapping_mul(0xbf58_476d_1ce4_e5b9);
    let twice = fold(once, 27).wrapping_mul(0x94d0_49bb_1331_11eb);
    fold(twice, 31)
}

/// The number at a place, from 1 on, of those that SplitMix64 gives from a seed.
pub fn draw(seed: u64, place: u64) -> u64
    ensures { result ≡ drawn seed place }
{
    stir(seed.wrapping_add(place.wrapping_mul(0x9e37_79b9_7f4a_7c15)))
}

//! Why a view doesn't fit its block.

ghost use Rattle.std.specs.Prelude.{◌≡◌, ℕ, None};
ghost use Rattle.serde_json.specs.Data.{Data};
ghost use Rattle.sab_block.specs.View.{count};
ghost use Rattle.sab_refusal.specs.Reason.{fault_of};
ghost use Rattle.sab_reader.specs.Script.Truth.{IsMisfit, IsTrueOf};
ghost use Rattle.sab_reader.specs.Script.ViewPlaces.{HasView};

use crate::script::view_spec::ViewSpec;
use sab_refusal::{Located, Location, Member, Misfit, ReadFault, Reason};

/// The refusal of a view there that can't be made on its block of so many bytes: of its offset or of its length.
pub(crate) fn misfit(at: Location, block_len: u32, spec: ViewSpec) -> Located
    ensures fault { fault_of result.why ≡ ReadFault.BadView }
    ensures reported { count spec.kind block_len spec.offset spec.length ≡ None → (root : Data) (i : ℕ)
        → at ≡ Location.Item Member.Views i → HasView root i block_len spec → IsTrueOf root result }
{
    let (member, misfit) = part_amiss(block_len, spec);
    let at = at.member(member);
    let why = Reason::Misfit(misfit);
    Located { at, why }
}

/// What doesn't fit, in the order in which a view is made: its offset, or its length.
fn part_amiss(block_len: u32, spec: ViewSpec) -> (Member, Misfit)
    ensures { count spec.kind block_len spec.offset spec.length ≡ None → (root : Data) (i : ℕ)
        → HasView root i block_len spec → IsMisfit root (Location.Part Member.Views i result.0) result.1 }
{
    let size = spec.kind.size();
    let Ok(offset) = u64::try_from(spec.offset) else {
        return (Member::Offset, Misfit::BelowZero(spec.offset));
    };
    if offset % u64::from(size) != 0 {
        return (Member::Offset, Misfit::Uneven(size));
    }
    if u64::from(block_len) < offset {
        return (Member::Offset, Misfit::Behind(block_len));
    }
    match spec.length {
        None => (Member::Length, Misfit::UnevenBlock(block_len, size)),
        Some(length) if length < 0 => (Member::Length, Misfit::BelowZero(length)),
        Some(length) => {
            let room = (block_len - offset as u32) / size;
            (Member::Length, Misfit::TooLong(length, room))
        }
    }
}

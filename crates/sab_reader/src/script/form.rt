//! The two forms of a script.

use sab_refusal::Member;

/// How a script gives its blocks.
#[derive(Clone, Copy, Debug, PartialEq, Eq)]
pub enum Form {
    /// `bytes` is the length of the one block, and all views are on it.
    Bytes,
    /// `blocks` has the length of each block, and each view has its block's position.
    Blocks,
}

impl Form {
    ghost use Rattle.std.specs.Prelude.{◌≡◌};
    ghost use Rattle.sab_reader.specs.Script.Blocks.{lens_name};
    ghost use Rattle.sab_refusal.specs.Location.{member_name};
    ghost use Rattle.sab_reader.specs.Script.Places.{lens_member, view_members};

    /// The member of a script that gives its blocks.
    pub(crate) fn lens_member(self) -> Member
        ensures member { result ≡ lens_member self }
        ensures name { member_name result ≡ lens_name self }
    {
        match self {
            Form::Bytes => Member::Bytes,
            Form::Blocks => Member::Blocks,
        }
    }

    /// The members of a view.
    pub(crate) fn view_members(self) -> &'static [Member]
        ensures { result.now ≡ view_members self }
    {
        match self {
            Form::Bytes => &[Member::Kind, Member::Length, Member::Name, Member::Offset],
            Form::Blocks => &[
                Member::Block,
                Member::Kind,
                Member::Length,
                Member::Name,
                Member::Offset,
            ],
        }
    }
}

//! Where in a script a value is.

use crate::member::Member;
use std::fmt;

/// Where in a script a value is, by the members and indices that lead to it.
#[derive(Clone, Copy, Debug)]
pub enum Location {
    /// It is the script.
    Script,
    /// It is a member of the script, as `agents`.
    Member(Member),
    /// It is an item of such a member, as `agents[3]`.
    Item(Member, usize),
    /// It is a member of such an item, as `agents[3].calls`.
    Part(Member, usize, Member),
    /// It is an item of that, as `agents[3].calls[37]`.
    Call(Member, usize, Member, usize),
    /// It is an item of that, as `agents[3].calls[37][1]`.
    Element(Member, usize, Member, usize, usize),
}

impl Location {
    ghost use Rattle.std.specs.Prelude.{◌≡◌};
    ghost use Rattle.sab_refusal.specs.Location.{member_at, item_at};

    /// The member of the object that is here; where no object of a script can be, the same location.
    pub fn member(self, member: Member) -> Location
        ensures { result ≡ member_at self member }
    {
        match self {
            Location::Script => Location::Member(member),
            Location::Item(list, i) => Location::Part(list, i, member),
            _ => self,
        }
    }

    /// The item of the array that is here; where no array of a script can be, the same location.
    pub fn item(self, index: usize) -> Location
        ensures { result ≡ item_at self index }
    {
        match self {
            Location::Member(list) => Location::Item(list, index),
            Location::Part(list, i, part) => Location::Call(list, i, part, index),
            Location::Call(list, i, part, j) => Location::Element(list, i, part, j, index),
            _ => self,
        }
    }
}

impl fmt::Display for Location {
    ghost use Rattle.std.specs.Prelude.{Some};
    ghost use Rattle.sab_refusal.specs.Location.{location_text};

    ghost output = { λ location. Some (location_text location) };

    fn fmt<W: fmt::Write>(&self, f: &mut fmt::Formatter<W>) -> fmt::Result {
        match self {
            Location::Script => f.write_str("script"),
            Location::Member(list) => write!(f, "{list}"),
            Location::Item(list, i) => write!(f, "{list}[{i}]"),
            Location::Part(list, i, part) => write!(f, "{list}[{i}].{part}"),
            Location::Call(list, i, part, j) => write!(f, "{list}[{i}].{part}[{j}]"),
            Location::Element(list, i, part, j, k) => write!(f, "{list}[{i}].{part}[{j}][{k}]"),
        }
    }
}

//! The members of the objects of a script.

use std::fmt;

/// A member that an object of a script can have.
#[derive(Clone, Copy, Debug)]
pub enum Member {
    /// Of a script: its agents.
    Agents,
    /// Of an agent, whether it can block; of a view, the position of its block.
    Block,
    /// Of a script: the lengths of its blocks.
    Blocks,
    /// Of a script of the older form: the length of its block.
    Bytes,
    /// Of an agent: its calls.
    Calls,
    /// Of a view: the kind of its elements.
    Kind,
    /// Of a view: how many elements it has.
    Length,
    /// Of a view: what it is called.
    Name,
    /// Of a view: the byte at which it begins.
    Offset,
    /// Of a script: its moves.
    Schedule,
    /// Of a move: the agent whose time is up.
    Timeout,
    /// Of a script: its views.
    Views,
}

impl Member {
    ghost use Rattle.std.specs.Prelude.{◌≡◌};
    ghost use Rattle.sab_refusal.specs.Location.{member_name};

    /// What it is called.
    pub fn name(self) -> &'static str
        ensures { result.now ≡ member_name self }
    {
        match self {
            Member::Agents => "agents",
            Member::Block => "block",
            Member::Blocks => "blocks",
            Member::Bytes => "bytes",
            Member::Calls => "calls",
            Member::Kind => "kind",
            Member::Length => "length",
            Member::Name => "name",
            Member::Offset => "offset",
            Member::Schedule => "schedule",
            Member::Timeout => "timeout",
            Member::Views => "views",
        }
    }
}

impl fmt::Display for Member {
    ghost use Rattle.std.specs.Prelude.{Some};
    ghost use Rattle.sab_refusal.specs.Location.{member_name};

    ghost output = { λ member. Some (member_name member) };

    fn fmt<W: fmt::Write>(&self, f: &mut fmt::Formatter<W>) -> fmt::Result {
        f.write_str(self.name())
    }
}

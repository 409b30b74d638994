//! What things in a picture are, by which they have their colours.

ghost use Rattle.std.specs.Prelude.{◌≡◌, ◌≤◌, length};
ghost use Rattle.sab_svg.specs.Pieces.{class_text};

/// What a thing in a picture is.
#[derive(Clone, Copy)]
pub(crate) enum Class {
    /// The answer of a call.
    Answer,
    /// The background of every second row.
    Band,
    /// Time in a call.
    Call,
    /// What is less important.
    Dim,
    /// An error.
    Error,
    /// The head of a lane.
    Head,
    /// A text.
    Ink,
    /// The middle of a lane.
    Lane,
    /// Time in a call that hasn't returned.
    OpenCall,
    /// Time in a wait that nobody has left.
    OpenWait,
    /// The background of all.
    Paper,
    /// The number of a row.
    Row,
    /// The background of all rows.
    Rows,
    /// Time in a wait.
    Wait,
    /// An arrow to an agent that was woken.
    Wake,
}

impl Class {
    /// The most bytes of its name.
    pub(crate) const MAX_LEN: usize = 9;

    /// Its name.
    pub(crate) fn name(self) -> &'static [u8]
        ensures text { result.now ≡ class_text self }
        ensures len { length result.now ≤ Class.MAX_LEN }
    {
        match self {
            Class::Answer => b"answer",
            Class::Band => b"band",
            Class::Call => b"call",
            Class::Dim => b"dim",
            Class::Error => b"error",
            Class::Head => b"head",
            Class::Ink => b"ink",
            Class::Lane => b"lane",
            Class::OpenCall => b"call open",
            Class::OpenWait => b"wait open",
            Class::Paper => b"paper",
            Class::Row => b"row",
            Class::Rows => b"rows",
            Class::Wait => b"wait",
            Class::Wake => b"wake",
        }
    }
}

//! What events do.

use crate::flags::Flags;

/// What an event can be said to do.
#[derive(Clone, Copy, Debug)]
pub(crate) enum Deed {
    Load,
    Store,
    Add,
    Sub,
    And,
    Or,
    Xor,
    Exchange,
    CompareExchange,
    Wait,
    Notify,
    /// A wait that was woken returns.
    Leave,
    /// A wait whose time is up returns.
    TimeUp,
    /// An ordinary read.
    Read,
    /// An ordinary write.
    Write,
}

impl Deed {
    ghost use Rattle.std.specs.Prelude.{◌≡◌, ◌↔◌, IsTrue, IfSome, IfNone};
    ghost use Rattle.sab_trace.specs.declared.deed.Deed.{Deed};
    ghost use Rattle.sab_trace.specs.Deeds.{word_of, is_call, flags_of, CanHave, IsSizeOf};

    /// What a word says that an event does; `None` if it isn't one of these words.
    pub(crate) fn of(word: &str) -> Option<Deed>
        ensures some { IfSome result (λ deed. word.now ≡ word_of deed) }
        ensures none { IfNone result ((deed : Deed) → word.now ≡ word_of deed → ⊥) }
    {
        match word {
            "load" => Some(Deed::Load),
            "store" => Some(Deed::Store),
            "add" => Some(Deed::Add),
            "sub" => Some(Deed::Sub),
            "and" => Some(Deed::And),
            "or" => Some(Deed::Or),
            "xor" => Some(Deed::Xor),
            "exchange" => Some(Deed::Exchange),
            "compareExchange" => Some(Deed::CompareExchange),
            "wait" => Some(Deed::Wait),
            "notify" => Some(Deed::Notify),
            "leave" => Some(Deed::Leave),
            "time-up" => Some(Deed::TimeUp),
            "read" => Some(Deed::Read),
            "write" => Some(Deed::Write),
            _ => None,
        }
    }

    /// Whether it is a call of `Atomics`, which may throw.
    fn is_call(self) -> bool
        ensures { result ≡ is_call self }
    {
        match self {
            Deed::Leave | Deed::TimeUp | Deed::Read | Deed::Write => false,
            _ => true,
        }
    }

    /// The flags of an event that does it; `exchanges` is whether a compareExchange writes.
    fn flags(self, exchanges: bool) -> Flags
        ensures { result ≡ flags_of self exchanges }
    {
        let (read, write, atomic, waiters) = match self {
            Deed::Load => (true, false, true, false),
            Deed::Store => (false, true, true, false),
            Deed::CompareExchange => (true, exchanges, true, false),
            Deed::Wait => (true, false, true, true),
            Deed::Notify | Deed::Leave | Deed::TimeUp => (false, false, false, true),
            Deed::Read => (true, false, false, false),
            Deed::Write => (false, true, false, false),
            _ => (true, true, true, false),
        };
        Flags {
            read,
            write,
            atomic,
            waiters,
        }
    }

    /// Whether an event that does it can have these flags: those of what it does, or none, if it is a call that throws.
    pub(crate) fn can_have(self, flags: Flags) -> bool
        ensures { IsTrue result ↔ CanHave self flags }
    {
        flags.are(self.flags(flags.write)) || (self.is_call() && flags.are(Flags::NONE))
    }

    /// Whether an event that does it can be at so many bytes, if it acts.
    pub(crate) fn can_be_at(self, size: i64) -> bool
        ensures { IsTrue result ↔ IsSizeOf self size }
    {
        match self {
            Deed::Wait | Deed::Notify | Deed::Leave | Deed::TimeUp => size == 4 || size == 8,
            Deed::Read | Deed::Write => 1 <= size && size <= 65_536,
            _ => size == 1 || size == 2 || size == 4 || size == 8,
        }
    }
}

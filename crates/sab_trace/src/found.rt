//! The members of an event's object, as they are read.

ghost use Rattle.std.specs.Prelude.{◌≡◌, ℕ, ℤ, Bool, List, Option, Some, None, IfSome, OnSome};
ghost use Rattle.json.specs.Reads.{token_of};
ghost use Rattle.serde_json.specs.Data.{boolean, object, no_members};
ghost use Rattle.sab_trace.specs.Tokens.{ReadsTo, whole as whole_data};

use crate::deed::Deed;
use crate::flags::Flags;
use crate::numbers::Numbers;
use crate::said::Said;
use crate::tokens::{deed, flag, source, whole};
use json::Token;

/// The members of an event's object that were read so far.
#[derive(Clone, Copy)]
pub(crate) struct Found {
    agent: Option<i64>,
    atomic: Option<bool>,
    block: Option<i64>,
    byte: Option<i64>,
    call: Option<i64>,
    does: Option<Deed>,
    event: Option<i64>,
    read: Option<bool>,
    size: Option<i64>,
    has_source: bool,
    waiters: Option<bool>,
    write: Option<bool>,
}

/// Fills an empty slot; `None` if it is full.
fn fill<T: Copy>(slot: &mut Option<T>, value: T) -> Option<()>
    ensures { OnSome result ((slot.old ≡ None) × (slot.new ≡ Some value)) }
{
    if slot.is_some() {
        return None;
    }
    *slot = Some(value);
    Some(())
}

/// Fills an empty slot with the whole number that a token is; `None` if the slot is full, or the token is none.
fn fill_whole(slot: &mut Option<i64>, token: Token<'_>) -> Option<()>
    ensures { OnSome result ((z : ℤ) × ReadsTo (token_of token.entry) (whole_data z)
        × (slot.old ≡ None) × (slot.new ≡ Some z)) }
{
    fill(slot, whole(token)?)
}

/// Fills an empty slot with the flag that a token is; `None` if the slot is full, or the token is no flag.
fn fill_flag(slot: &mut Option<bool>, token: Token<'_>) -> Option<()>
    ensures { OnSome result ((b : Bool) × ReadsTo (token_of token.entry) (boolean b)
        × (slot.old ≡ None) × (slot.new ≡ Some b)) }
{
    fill(slot, flag(token)?)
}

impl Found {
    ghost use Rattle.sab_trace.specs.declared.numbers.Numbers.{Numbers};
    ghost use Rattle.sab_trace.specs.Seen.{Says};
    ghost use Rattle.sab_trace.specs.Tokens.{slots_of, members_of, Takes, HasNumbersOf};

    /// No member.
    pub(crate) fn new() -> Found
        ensures { (source : Option (List ℕ)) → members_of (slots_of result source) ≡ no_members }
    {
        Found {
            agent: None,
            atomic: None,
            block: None,
            byte: None,
            call: None,
            does: None,
            event: None,
            read: None,
            size: None,
            has_source: false,
            waiters: None,
            write: None,
        }
    }

    /// Takes a member, whose value is one token; `None` if an event has no such member, or it is there already.
    pub(crate) fn take(&mut self, name: &str, token: Token<'_>) -> Option<()>
        ensures { OnSome result (Takes name.now (token_of token.entry) self.old self.new) }
    {
        match name {
            "event" => fill_whole(&mut self.event, token),
            "agent" => fill_whole(&mut self.agent, token),
            "call" => fill_whole(&mut self.call, token),
            "does" => fill(&mut self.does, deed(token)?),
            "block" => fill_whole(&mut self.block, token),
            "byte" => fill_whole(&mut self.byte, token),
            "size" => fill_whole(&mut self.size, token),
            "read" => fill_flag(&mut self.read, token),
            "write" => fill_flag(&mut self.write, token),
            "atomic" => fill_flag(&mut self.atomic, token),
            "waiters" => fill_flag(&mut self.waiters, token),
            "source" => {
                source(token)?;
                if self.has_source {
                    return None;
                }
                self.has_source = true;
                Some(())
            }
            _ => None,
        }
    }

    /// The numbers; `None` if one of them is missing.
    fn numbers(&self) -> Option<Numbers>
        ensures { IfSome result (HasNumbersOf self.now) }
    {
        Some(Numbers {
            agent: self.agent?,
            block: self.block?,
            byte: self.byte?,
            call: self.call?,
            event: self.event?,
            size: self.size?,
        })
    }

    /// What the members say; `None` if one is missing, a number isn't within ±(2^53 - 1), or the flags don't go with
    /// what the event does.
    pub(crate) fn said(&self) -> Option<Said>
        ensures { IfSome result (λ said. (source : Option (List ℕ))
            → Says (object (members_of (slots_of self.now source))) said) }
    {
        let numbers = self.numbers()?;
        let flags = Flags {
            read: self.read?,
            write: self.write?,
            atomic: self.atomic?,
            waiters: self.waiters?,
        };
        let does = self.does?;
        if self.has_source && numbers.are_safe() && does.can_have(flags) {
            Some(Said {
                does,
                flags,
                numbers,
            })
        } else {
            None
        }
    }
}

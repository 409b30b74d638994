//! Stretches of bytes that have one last writer.

ghost use Rattle.std.specs.Prelude.{◌≡◌, ◌<◌, ◌≤◌, IfOk, length};
ghost use Rattle.sab_judge.specs.Stretch.{AreInOrder, Gives, GivesUpTo, HasByte, IsOverwritten, IsRewritten, IsSplit};
ghost use Rattle.sab_judge.specs.Stretch.{no_stretch, stretch_at, writer_of};
ghost use Rattle.sab_judge.specs.declared.trace.TheConstants.Trace.{MAX_EVENTS};

use std::alloc::{AllocError, Global};

/// The bytes of a block from one on, up to where the next stretch begins. All of them have the same last writer, or
/// none.
#[derive(Clone, Copy)]
pub(crate) struct Stretch {
    pub(crate) start: u32,
    /// One more than the last writer's position, or 0: so a stretch takes eight bytes.
    pub(crate) writer: u32,
}

impl Stretch {
    /// The last event that writes its bytes, if there is one.
    fn last_writer(self) -> Option<usize>
        ensures { result ≡ writer_of self }
    {
        if self.writer == 0 {
            None
        } else {
            Some(self.writer as usize - 1)
        }
    }
}

/// The last writer of a byte and of those behind it, up to `end`.
#[derive(Clone, Copy)]
pub(crate) struct Held {
    pub(crate) writer: Option<usize>,
    pub(crate) end: u64,
}

/// The stretches of a block, in order. The first one begins at byte 0.
#[derive(Drop)]
pub(crate) struct Stretches {
    list: Vec<Stretch>,
}

impl Stretches {
    /// One stretch, which nobody has written.
    pub(crate) fn new(alloc: Global) -> Result<Stretches, AllocError>
        ensures order { IfOk result (λ stretches. AreInOrder stretches.list.items) }
        ensures unwritten { IfOk result (λ stretches. length stretches.list.items ≡ 1
            × stretch_at stretches.list.items 0 ≡ no_stretch) }
    {
        let mut list = Vec::new(alloc);
        list.push(Stretch {
            start: 0,
            writer: 0,
        })?;
        Ok(Stretches { list })
    }

    /// The last writer of a byte below the limit, and how far below the limit those behind it have the same.
    pub(crate) fn find(&self, byte: u64, limit: u64) -> Held
        requires order { AreInOrder self.now.list.items }
        requires below { byte < limit }
        ensures more { byte < result.end }
        ensures within { result.end ≤ limit }
        ensures gives { GivesUpTo self.now.list.items byte result.end result.writer }
    {
        let k = position_of(&self.list, byte);
        let end = match self.list.get(k + 1) {
            Some(next) => u64::from(next.start).min(limit),
            None => limit,
        };
        Held {
            writer: self.list[k].last_writer(),
            end,
        }
    }

    /// Makes an event the last writer of the bytes from `start` up to `end`.
    pub(crate) fn write(&mut self, start: u32, end: u32, writer: usize) -> Result<(), AllocError>
        requires order { AreInOrder self.old.list.items }
        requires some { start < end }
        requires small { writer < MAX_EVENTS }
        ensures { IfOk result (λ _. IsRewritten self.old.list.items self.new.list.items start end writer) }
    {
        let from = split(&mut self.list, start)?;
        let to = split(&mut self.list, end)?;
        overwrite(&mut self.list, from, to, writer as u32);
        Ok(())
    }
}

/// Which stretch has the byte.
fn position_of(list: &[Stretch], byte: u64) -> usize
    requires { AreInOrder list.now }
    ensures { HasByte list.now result byte }
{
    list.partition_point(|stretch| u64::from(stretch.start) <= byte) - 1
}

/// Has a stretch begin at a byte, and returns which. The bytes keep their writers.
fn split(list: &mut Vec<Stretch>, byte: u32) -> Result<usize, AllocError>
    requires { AreInOrder list.old.items }
    ensures { IfOk result (IsSplit list.old.items list.new.items byte) }
{
    let k = position_of(list, u64::from(byte));
    let Stretch { start, writer } = list[k];
    if start == byte {
        return Ok(k);
    }
    list.insert(
        k + 1,
        Stretch {
            start: byte,
            writer,
        },
    )?;
    Ok(k + 1)
}

/// Makes an event the last writer of the stretches from one up to another.
fn overwrite(list: &mut Vec<Stretch>, from: usize, to: usize, writer: u32)
    requires forward { from ≤ to }
    requires within { to ≤ length list.old.items }
    requires small { writer < MAX_EVENTS }
    ensures { IsOverwritten list.old.items list.new.items from to writer }
{
    for k in from..to {
        list[k] = Stretch {
            start: list[k].start,
            writer: writer + 1,
        };
    }
}

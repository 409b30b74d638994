//! Links from events back to those like them.

ghost use Rattle.std.specs.Prelude.{◌≡◌, ◌+◌, ◌≤◌, ◌<◌, length};
ghost use Rattle.sab_judge.specs.declared.event.Event.{Event};
ghost use Rattle.sab_judge.specs.Race.{Counts};
ghost use Rattle.sab_judge.specs.Link.{AreLinks, HasAccess, IsEarliest, IsLast, IsLike, IsLink};
ghost use Rattle.sab_judge.specs.declared.trace.TheConstants.Trace.{MAX_EVENTS};

use crate::event::Event;

/// The way from an event back to those before it that are like it: of its agent, with the same access.
#[derive(Clone, Copy)]
pub(crate) struct Link {
    /// How many there are.
    pub(crate) rank: u32,
    /// The last of them, where there is one.
    pub(crate) previous: u32,
    /// One of them, where there is one, which is that far back that a search takes few steps.
    pub(crate) jump: u32,
}

impl Link {
    /// That of an event before which there is none like it.
    pub(crate) fn first() -> Link
        ensures { result.rank ≡ 0 }
    {
        Link {
            rank: 0,
            previous: 0,
            jump: 0,
        }
    }

    /// That of the `i`-th event, of which the last one like it is known.
    pub(crate) fn behind(trace: &[Event], links: &[Link], i: usize, previous: u32) -> Link
        requires small { i < MAX_EVENTS }
        requires links { AreLinks trace.now i links.now }
        requires previous { IsLast trace.now i previous }
        requires access { HasAccess trace.now i }
        ensures { IsLink trace.now i result }
    {
        Link {
            rank: links[previous as usize].rank + 1,
            previous,
            jump: jump_behind(trace, links, i, previous),
        }
    }
}

/// Where a link jumps to whose event stands behind this one: so that of two jumps of the same width there comes one
/// that is twice as wide, and some 2 log n steps lead to any of n events (Myers, "An applicative random-access stack").
fn jump_behind(trace: &[Event], links: &[Link], i: usize, previous: u32) -> u32
    requires small { i < MAX_EVENTS }
    requires links { AreLinks trace.now i links.now }
    requires previous { previous < i }
    requires access { HasAccess trace.now previous }
    ensures within { result ≤ previous }
    ensures like { IsLike trace.now previous result }
{
    let last = links[previous as usize];
    if last.rank == 0 {
        return previous;
    }
    let middle = links[last.jump as usize];
    if middle.rank == 0 {
        return previous;
    }
    let far = links[middle.jump as usize];
    if last.rank + far.rank == 2 * middle.rank {
        middle.jump
    } else {
        previous
    }
}

/// The earliest event like the one at a position, itself included, that isn't below the bound.
fn earliest_from(trace: &[Event], links: &[Link], position: u32, bound: usize) -> u32
    requires links { AreLinks trace.now (length links.now) links.now }
    requires within { position < length links.now }
    requires access { HasAccess trace.now position }
    requires bound { bound ≤ position }
    ensures { IsEarliest trace.now position bound result }
{
    let mut at = position;
    loop {
        let link = links[at as usize];
        if link.rank == 0 {
            return at;
        }
        if bound <= link.jump as usize {
            at = link.jump;
        } else if bound <= link.previous as usize {
            at = link.previous;
        } else {
            return at;
        }
    }
}

/// How many events like the one at a position, itself included, aren't below the bound and not behind the position.
pub(crate) fn count_from(trace: &[Event], links: &[Link], position: u32, bound: usize) -> u32
    requires links { AreLinks trace.now (length links.now) links.now }
    requires within { position < length links.now }
    requires small { length links.now ≤ MAX_EVENTS }
    requires access { HasAccess trace.now position }
    requires bound { bound ≤ position }
    ensures { Counts (λ i. IsLike trace.now position i × (bound ≤ i)) (position + 1) result }
{
    let earliest = earliest_from(trace, links, position, bound);
    links[position as usize].rank - links[earliest as usize].rank + 1
}

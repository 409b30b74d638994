//! The sending end of a ring.

ghost use Rattle.std.specs.Prelude.{◌≡◌, ◌≤◌, ◌^◌, ◌++◌, length};
ghost use Rattle.rtrb.specs.Ring.{sent, known_free, SameProducer};
ghost use Rattle.sab_sim.specs.declared.sim.TheConstants.Sim.{MAX_ENTRIES};

use crate::gate::Gate;
use rtrb::Producer;
use sab_sim::Move;

/// Sends an agent's moves into its ring, in order, each once. Before each the gate is called.
///
/// There are at most 2^20 moves, and the ring is known to have room for them all, so no push waits.
pub fn feed<G: Gate>(ring: &mut Producer<Move>, agent: u32, moves: &[Move], gate: &G)
    requires most { length moves.now ≤ MAX_ENTRIES }
    requires room { length moves.now ≤ known_free ring.old }
    ensures ring { SameProducer ring.old ring.new }
    ensures sent { sent ring.new ≡ sent ring.old ++ moves.now }
{
    for (k, m) in moves.iter().enumerate() {
        gate.before(agent, k as u32);
        ring.push_reserved(*m);
    }
}

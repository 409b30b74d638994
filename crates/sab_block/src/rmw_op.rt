//! Read-modify-write operations.

ghost use Rattle.std.specs.Prelude.{◌≡◌, ◌*◌, ◌<◌, ◌≤◌, length};
ghost use Rattle.sab_block.specs.Kind.{element_size, raw_count};
ghost use Rattle.sab_block.specs.RmwOp.{combined, function_of_op};

use crate::kind::Kind;

/// What a read-modify-write makes of the old element and its operand (AtomicReadModifyWrite).
#[derive(Clone, Copy, Debug, PartialEq, Eq)]
pub enum RmwOp {
    /// The operand itself (`Atomics.exchange`).
    Exchange,
    /// The sum, which wraps (`Atomics.add`).
    Add,
    /// The old element less the operand, which wraps (`Atomics.sub`).
    Sub,
    /// The bits set in both (`Atomics.and`).
    And,
    /// The bits set in one or both (`Atomics.or`).
    Or,
    /// The bits set in just one (`Atomics.xor`).
    Xor,
}

impl RmwOp {
    /// The name of its function of `Atomics`.
    pub fn function(self) -> &'static str
        ensures name { result.now ≡ function_of_op self }
        ensures len { length result.now ≤ 8 }
    {
        match self {
            RmwOp::Exchange => "exchange",
            RmwOp::Add => "add",
            RmwOp::Sub => "sub",
            RmwOp::And => "and",
            RmwOp::Or => "or",
            RmwOp::Xor => "xor",
        }
    }

    /// The new raw element, of an old one and the operand's.
    #[tactic(auto, using(crate::proofs::Combining::combining))]
    pub(crate) fn combine(self, kind: Kind, old: u64, operand: u64) -> u64
        requires old { old < raw_count kind }
        requires operand { operand < raw_count kind }
        ensures value { result ≡ combined self (8 * element_size kind) old operand }
        ensures fits { result < raw_count kind }
    {
        match self {
            RmwOp::Exchange => operand,
            RmwOp::Add => old.wrapping_add(operand) & kind.max_raw(),
            RmwOp::Sub => old.wrapping_sub(operand) & kind.max_raw(),
            RmwOp::And => old & operand,
            RmwOp::Or => old | operand,
            RmwOp::Xor => old ^ operand,
        }
    }
}

//! Orders of accesses.

/// The \[\[Order\]\] of an access (Shared Data Block Events). Those of `Init` are no events of an agent.
#[derive(Clone, Copy, Debug, PartialEq, Eq)]
pub enum Order {
    /// Of an access by an index of a typed array, or by a method of `DataView`.
    Unordered,
    /// Of an access by a function of `Atomics`.
    SeqCst,
}

impl Order {
    ghost use Rattle.std.specs.Prelude.{◌≡◌};
    ghost use Rattle.sab_judge.specs.Order.{is_seq_cst};

    /// Whether it is SeqCst.
    pub fn is_seq_cst(self) -> bool
        ensures { result ≡ is_seq_cst self }
    {
        match self {
            Order::Unordered => false,
            Order::SeqCst => true,
        }
    }
}

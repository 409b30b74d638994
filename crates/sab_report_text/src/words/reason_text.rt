//! Why calls throw.

ghost use Rattle.std.specs.Prelude.{◌≡◌, ◌+◌, ◌≤◌, ◌++◌, length};
ghost use Rattle.sab_report_text.specs.Words.FactText.{view_reason, reason_text};

use crate::text::Chunk;
use crate::words::call_text::push_name;
use crate::words::counts::push_counted;
use crate::words::name::Name;
use sab_block::Check;
use sab_plan::{Call, Plan, PlanView};

/// The most bytes of what a view is or has.
const VIEW_REASON_LEN: usize = 60;

/// The most bytes of why a call throws.
pub(crate) const REASON_LEN: usize = 100;

/// Appends why a call of an agent throws, by the check that failed.
pub(crate) fn push_reason(
    names: &[Name],
    plan: &Plan,
    agent: u32,
    call: Call,
    check: Check,
    chunk: &mut Chunk,
)
    requires { length chunk.old + REASON_LEN ≤ Chunk.ROOM }
    ensures bytes { chunk.new ≡ chunk.old ++ reason_text names.now plan.now agent call check }
    ensures len { length chunk.new ≤ length chunk.old + REASON_LEN }
{
    if check == Check::CanBlock {
        chunk.push(b"agent ");
        chunk.push_number(u64::from(agent));
        chunk.push(b" can't block");
        return;
    }
    push_name(names, call.view(), chunk);
    if let Some(view) = plan.views().get(call.view() as usize) {
        push_view_reason(*view, check, chunk);
    }
}

/// Appends what a view is or has for which a call on it fails a check.
fn push_view_reason(view: PlanView, check: Check, chunk: &mut Chunk)
    requires { length chunk.old + VIEW_REASON_LEN ≤ Chunk.ROOM }
    ensures bytes { chunk.new ≡ chunk.old ++ view_reason view check }
    ensures len { length chunk.new ≤ length chunk.old + VIEW_REASON_LEN }
{
    let kind = view.view.kind();
    match check {
        Check::AtomicKind => {
            chunk.push(b" is ");
            chunk.push(kind.name().as_bytes());
            chunk.push(b", which Atomics doesn't take");
        }
        Check::WaitableKind => {
            chunk.push(b" is ");
            chunk.push(kind.name().as_bytes());
            chunk.push(b", not Int32 or BigInt64");
        }
        Check::Index => {
            chunk.push(b" has ");
            push_counted(view.view.len(), b" element", b" elements", chunk);
        }
        Check::Operand => {
            chunk.push(b" takes ");
            chunk.push(if kind.is_big() {
                b"BigInts"
            } else {
                b"Numbers"
            });
        }
        Check::CanBlock => {}
    }
}

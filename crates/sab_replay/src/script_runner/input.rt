//! Input of a bounded length.

ghost use Rattle.std.specs.Prelude.{◌≡◌, ◌≤◌, IfSome, IfOk, OnOk, IfErr, vec_len};
ghost use Rattle.std.specs.Io.KnownBytes.{IsAtEnd};
ghost use Rattle.sab_replay.specs.ScriptRunner.Input.{IsFaultOfInput, IsInputFault};

use crate::faults::ToolFault;
use std::alloc::Global;
use std::io::Read;

/// How many bytes a script can have.
pub const MAX_INPUT: usize = 0x10_0000;

// The clauses cite the constant: so its number is held here.
const _: () = prove!(MAX_INPUT == 1_048_576);

/// Reads a script to the end.
///
/// TooLong once more than 1,048,576 bytes came, ReadFailed at the first read that returns a fault, and OutOfMemory
/// if there is no memory for what came. Each read except the last gives a byte at least, so that the reads are
/// 1,048,577 at most.
pub fn read_input<R: Read>(alloc: Global, r: &mut R) -> Result<Vec<u8>, ToolFault>
    ensures all { IfOk result (λ input. IfSome (R.remaining r.old) (λ bytes. input.items ≡ bytes)) }
    ensures short { IfOk result (λ input. vec_len input ≤ MAX_INPUT) }
    ensures end { OnOk result (IsAtEnd (R.remaining r.new)) }
    ensures err { IfErr result (IsInputFault (R.remaining r.old)) }
{
    read_at_most(alloc, MAX_INPUT, r)
}

/// Reads to the end what has at most `limit` bytes.
///
/// TooLong once more bytes came, ReadFailed at the first read that returns a fault, and OutOfMemory if there is no
/// memory for what came. Each read except the last gives a byte at least, so that the reads are `limit` and one more at
/// most.
#[tactic(auto, using(crate::proofs::OfScriptRunner::Consuming::consumes_both, crate::proofs::OfScriptRunner::Consuming::consumed_all, crate::proofs::OfScriptRunner::Consuming::consumed_long, crate::proofs::OfScriptRunner::Consuming::consumes_none))]
pub fn read_at_most<R: Read>(alloc: Global, limit: usize, r: &mut R) -> Result<Vec<u8>, ToolFault>
    ensures all { IfOk result (λ input. IfSome (R.remaining r.old) (λ bytes. input.items ≡ bytes)) }
    ensures short { IfOk result (λ input. vec_len input ≤ limit) }
    ensures end { OnOk result (IsAtEnd (R.remaining r.new)) }
    ensures err { IfErr result (IsFaultOfInput limit (R.remaining r.old)) }
{
    let mut input = Vec::new(alloc);
    // It is zeroed at each call, so it isn't larger: the longest script takes some 65 reads.
    let mut buffer = [0; 16_384];
    loop {
        let n = r.read(&mut buffer).map_err(|_| ToolFault::ReadFailed)?;
        if n == 0 {
            return Ok(input);
        }
        if limit - input.len() < n {
            return Err(ToolFault::TooLong);
        }
        input.extend_from_slice(&buffer[..n])?;
    }
}

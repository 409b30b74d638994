//! Bytes of a block, and accesses in order on a fresh block.

use sab_block::Block;
use sab_sim::{Answer, Call, Entry, Plan, What};
use std::alloc::Global;
use std::test::Fail;
use test_helpers::{empty, expect, is_text, plan_of};

/// Whether these are so many bytes, and each of them is zero.
fn are_zero(bytes: &[u8], len: usize) -> bool {
    for byte in bytes {
        if *byte != 0 {
            return false;
        }
    }
    bytes.len() == len
}

/// Whether a block has so many bytes, and each of them is zero.
fn is_zero(block: Block, len: usize) -> bool {
    block.len() as usize == len
        && block.is_empty() == (len == 0)
        && are_zero(block.bytes(), len)
        && are_zero(&block.into_bytes(), len)
}

/// The last one is longer than in a plan.
#[test]
fn a_fresh_block_is_zero(rt: HostRuntime) -> Result<(), Fail> {
    for len in [4, 0, 1_048_576] {
        let block = Block::new(rt.alloc(), len)?;
        expect(is_zero(block, len as usize), "another block")?;
    }
    Ok(())
}

#[test]
fn elements_are_little_endian(rt: HostRuntime) -> Result<(), Fail> {
    let mut block = Block::new(rt.alloc(), 4)?;
    block.write(1, 2, 513);
    let is_written = block.bytes() == [0, 1, 2, 0].as_slice();
    let is_read = block.read(0, 4) == 131_328;
    expect(is_written && is_read, "another element")
}

/// What accesses show; a script of one agent that makes them; and what each returns, and then the bytes.
const ROWS: [(&str, &str, &str); 8] = [
    (
        "a store returns the operand unwrapped",
        r#"{"bytes":1,"views":[{"name":"a","kind":"Uint8","offset":0,"length":null}],
  "agents":[{"block":true,"calls":[["store","a",0,300],["load","a",0]]}],"schedule":[]}"#,
        "0 0 0 act 300\n1 0 0 act 44\nblock 0 2c\n",
    ),
    (
        "an add wraps within a signed byte",
        r#"{"bytes":1,"views":[{"name":"a","kind":"Int8","offset":0,"length":null}],
  "agents":[{"block":true,"calls":[["store","a",0,-128],["add","a",0,-1],["load","a",0]]}],"schedule":[]}"#,
        "0 0 0 act -128\n1 0 0 act -128\n2 0 0 act 127\nblock 0 7f\n",
    ),
    (
        "a compareExchange wraps what it expects",
        r#"{"bytes":1,"views":[{"name":"a","kind":"Uint8","offset":0,"length":null}],
  "agents":[{"block":true,"calls":[
    ["store","a",0,5],["compareExchange","a",0,261,7],["compareExchange","a",0,5,9]]}],"schedule":[]}"#,
        "0 0 0 act 5\n1 0 0 act 5\n2 0 0 act 7\nblock 0 07\n",
    ),
    (
        "a compareExchange takes both operands before it writes",
        r#"{"bytes":1,"views":[{"name":"a","kind":"Uint8","offset":0,"length":null}],
  "agents":[{"block":true,"calls":[
    ["store","a",0,5],["compareExchange","a",0,"5",7],["compareExchange","a",0,5,"7"]]}],"schedule":[]}"#,
        "0 0 0 act 5\n1 0 0 act TypeError\n2 0 0 act TypeError\nblock 0 05\n",
    ),
    (
        "the kind is checked before the index",
        r#"{"bytes":8,"views":[
    {"name":"a","kind":"Int32","offset":0,"length":null},
    {"name":"c","kind":"Uint8Clamped","offset":0,"length":null}],
  "agents":[{"block":true,"calls":[
    ["load","a",-1],["load","a",2],["load","a",9007199254740991],["load","c",-1]]}],"schedule":[]}"#,
        "0 0 0 act RangeError\n1 0 0 act RangeError\n2 0 0 act RangeError\n3 0 0 act TypeError\nblock 0 0000000000000000\n",
    ),
    (
        "the index is checked before the operand",
        r#"{"bytes":8,"views":[
    {"name":"a","kind":"Int32","offset":0,"length":null},
    {"name":"b","kind":"BigUint64","offset":0,"length":null}],
  "agents":[{"block":true,"calls":[
    ["add","a",0,"1"],["add","a",2,"1"],["store","b",0,1],["store","b",0,"18446744073709551615"],
    ["xor","b",0,"0"],["store","b",0,"-1"],["load","b",0]]}],"schedule":[]}"#,
        "0 0 0 act TypeError\n1 0 0 act RangeError\n2 0 0 act TypeError\n3 0 0 act 18446744073709551615n
4 0 0 act 18446744073709551615n\n5 0 0 act -1n\n6 0 0 act 18446744073709551615n\nblock 0 ffffffffffffffff\n",
    ),
    (
        "each operation returns the old element",
        r#"{"bytes":2,"views":[{"name":"a","kind":"Uint16","offset":0,"length":null}],
  "agents":[{"block":true,"calls":[
    ["store","a",0,4660],["and","a",0,4080],["or","a",0,1],["xor","a",0,65535],["sub","a",0,-1],
    ["exchange","a",0,7]]}],"schedule":[]}"#,
        "0 0 0 act 4660\n1 0 0 act 4660\n2 0 0 act 560\n3 0 0 act 561\n4 0 0 act 64974\n5 0 0 act 64975\nblock 0 0700\n",
    ),
    (
        "a store keeps the low bits of a long BigInt",
        r#"{"bytes":8,"views":[{"name":"a","kind":"BigInt64","offset":0,"length":null}],
  "agents":[{"block":true,"calls":[
    ["store","a",0,"170141183460469231731687303715884105727"],["load","a",0],
    ["store","a",0,"-170141183460469231731687303715884105728"]]}],"schedule":[]}"#,
        "0 0 0 act 170141183460469231731687303715884105727n\n1 0 0 act -1n
2 0 0 act -170141183460469231731687303715884105728n\nblock 0 0000000000000000\n",
    ),
];

/// What a call returns that is an access through a view of a block.
fn result_of(block: &mut Block, plan: &Plan, call: Call) -> Option<Answer> {
    let Call::Access { view, access } = call else {
        return None;
    };
    let view = plan.views().get(view as usize)?.view;
    if view.block_len() != block.len() {
        return None;
    }
    Some(match block.access(&view, &access) {
        Ok(value) => Answer::Value(value),
        Err(thrown) => Answer::Threw(thrown),
    })
}

/// What the accesses of a plan's first agent return, as they are made one by one on a block.
fn results(alloc: Global, block: &mut Block, plan: &Plan) -> Result<Vec<Entry>, Fail> {
    let script = plan.scripts().first().ok_or("no agent")?;
    let mut journal = Vec::new(alloc);
    for call in &script.calls {
        let returned = result_of(block, plan, *call).ok_or("a call that can't be made")?;
        journal.push(Entry {
            agent: 0,
            call: 0,
            what: What::Acted(returned),
        })?;
    }
    Ok(journal)
}

/// Whether the accesses of a script, made on a fresh block, have these results, and leave these bytes.
fn are_made(alloc: Global, script: &str, text: &str) -> Result<bool, Fail> {
    let plan = plan_of(alloc, script)?;
    let len = plan.block_lens().first().copied().unwrap_or(0);
    let mut block = Block::new(alloc, len)?;
    let mut report = empty(alloc);
    report.journal = results(alloc, &mut block, &plan)?;
    report.blocks.push(block.into_bytes())?;
    Ok(is_text(alloc, &report, text)?)
}

#[test]
fn accesses_return_and_write_in_order(rt: HostRuntime) -> Result<(), Fail> {
    for &(shows, script, text) in &ROWS {
        expect(are_made(rt.alloc(), script, text)?, shows)?;
    }
    Ok(())
}

//! The block: bytes in which elements are read and written.

ghost use Rattle.std.specs.Prelude.{◌≡◌, ◌+◌, ◌*◌, ◌^◌, ◌<◌, ◌≤◌, ◌++◌, ◌↔◌, [], length, take, drop, replicate, Err};
ghost use Rattle.std.specs.Prelude.{IsTrue, IsOk, IfOk, OnErr, MatchOption};
ghost use Rattle.sab_block.specs.Block.{number, put, IsElementSize};
ghost use Rattle.sab_block.specs.View.{block_len_of};
ghost use Rattle.sab_block.specs.Access.{access_verdict, Acts};

use crate::access::Access;
use crate::check::{Check, access_place};
use crate::operand::{Operand, from_raw, wrapped};
use crate::thrown::Thrown;
use crate::view::View;
use byteorder::{ByteOrder, LittleEndian};
use std::alloc::{AllocError, Global};
use std::marker::Model;

/// A shared block of bytes, of a fixed length (Data Blocks: a Shared Data Block).
#[derive(Debug, Drop)]
pub struct Block {
    bytes: Vec<u8>,
}

impl Model for Block {
    ghost use Rattle.std.specs.Prelude.{ℕ, ◌^◌, ◌<◌, List, length};

    ghost Value = { List ℕ };

    ghost view = { λ b. b.bytes.items };

    ghost invariant = { λ b. length b.bytes.items < 2 ^ 32 };
}

impl Block {
    /// A block of `len` bytes, all zero (CreateSharedByteDataBlock).
    pub fn new(alloc: Global, len: u32) -> Result<Block, AllocError>
        ensures { IfOk result (λ block. block ≡ replicate len 0) }
    {
        Ok(Block {
            bytes: vec![in alloc; 0; len as usize]?,
        })
    }

    /// The number of its bytes.
    pub fn len(&self) -> u32
        ensures { result ≡ length self.now }
    {
        self.bytes.len() as u32
    }

    /// Whether it has no byte.
    pub fn is_empty(&self) -> bool
        ensures { IsTrue result ↔ (self.now ≡ []) }
    {
        self.bytes.is_empty()
    }

    /// Its bytes.
    pub fn bytes(&self) -> &[u8]
        ensures { result.now ≡ self.now }
    {
        self.bytes.as_slice()
    }

    /// Its bytes, handed over without a copy.
    pub fn into_bytes(self) -> Vec<u8>
        ensures { result.items ≡ self }
    {
        let Block { bytes } = self;
        bytes
    }

    /// The raw element of `size` bytes, 1, 2, 4 or 8, that begins at the byte `place` (GetValueFromBuffer).
    pub fn read(&self, place: u32, size: u32) -> u64
        requires size { IsElementSize size }
        requires inside { place + size ≤ length self.now }
        ensures value { result ≡ number self.now place size }
        ensures fits { result < 2 ^ (8 * size) }
    {
        read_at(self.bytes.as_slice(), place as usize, size)
    }

    /// Writes a raw element of `size` bytes, 1, 2, 4 or 8, from the byte `place` on, and no other byte
    /// (SetValueInBuffer).
    pub fn write(&mut self, place: u32, size: u32, raw: u64)
        requires size { IsElementSize size }
        requires inside { place + size ≤ length self.old }
        requires fits { raw < 2 ^ (8 * size) }
        ensures bytes { self.new ≡ put self.old place size raw }
        ensures len { length self.new ≡ length self.old }
    {
        write_at(&mut self.bytes, place as usize, size, raw);
    }

    /// Writes these bytes from the byte `place` on, and no other byte.
    pub fn set_bytes(&mut self, place: usize, bytes: &[u8])
        requires { place + length bytes.now ≤ length self.old }
        ensures bytes { self.new ≡ take place self.old ++ bytes.now ++ drop (place + length bytes.now) self.old }
        ensures len { length self.new ≡ length self.old }
    {
        set_at(&mut self.bytes, place, bytes);
    }

    /// Makes one access through a view of this block, as a whole, and returns its value.
    ///
    /// The checks come in this order: the view's kind is one that the functions of `Atomics` take, else TypeError
    /// (ValidateIntegerTypedArray); the index has an element, else RangeError (ValidateAtomicAccess); each operand,
    /// from left to right, is a BigInt exactly if the elements are, else TypeError. An access that throws leaves every
    /// byte as it was.
    pub fn access(&mut self, view: &View, access: &Access) -> Result<Operand, Thrown>
        requires { block_len_of view.now ≡ length self.old }

        ensures thrown { MatchOption (access_verdict view.now access.now) (IsOk result) (λ e. result ≡ Err e) }
        ensures act { IfOk result (λ answer. Acts view.now access.now self.old answer self.new) }
        ensures unchanged { OnErr result (self.new ≡ self.old) }
        ensures len { length self.new ≡ length self.old }
    {
        let place = access_place(view, access).map_err(Check::thrown)?;
        let kind = view.kind();
        let size = kind.size();
        match *access {
            Access::Load { .. } => Ok(from_raw(kind, self.read(place, size))),
            Access::Store { value, .. } => {
                self.write(place, size, wrapped(kind, value.whole()));
                Ok(value)
            }
            Access::Rmw { op, value, .. } => {
                let operand = wrapped(kind, value.whole());
                let old = self.read(place, size);
                self.write(place, size, op.combine(kind, old, operand));
                Ok(from_raw(kind, old))
            }
            Access::CompareExchange {
                expected,
                replacement,
                ..
            } => {
                let old = self.read(place, size);
                if old == wrapped(kind, expected.whole()) {
                    self.write(place, size, wrapped(kind, replacement.whole()));
                }
                Ok(from_raw(kind, old))
            }
        }
    }
}

/// The raw element that begins at a byte.
fn read_at(bytes: &[u8], place: usize, size: u32) -> u64
    requires size { IsElementSize size }
    requires inside { place + size ≤ length bytes.now }
    ensures value { result ≡ number bytes.now place size }
    ensures fits { result < 2 ^ (8 * size) }
{
    let element = &bytes[place..];
    match size {
        1 => LittleEndian::read_uint(element, 1),
        2 => u64::from(LittleEndian::read_u16(element)),
        4 => u64::from(LittleEndian::read_u32(element)),
        _ => LittleEndian::read_u64(element),
    }
}

/// Writes a raw element from a byte on.
fn write_at(bytes: &mut [u8], place: usize, size: u32, raw: u64)
    requires size { IsElementSize size }
    requires inside { place + size ≤ length bytes.old }
    requires fits { raw < 2 ^ (8 * size) }
    ensures { bytes.new ≡ put bytes.old place size raw }
{
    let element = &mut bytes[place..];
    match size {
        1 => LittleEndian::write_uint(element, raw, 1),
        2 => LittleEndian::write_u16(element, raw as u16),
        4 => LittleEndian::write_u32(element, raw as u32),
        _ => LittleEndian::write_u64(element, raw),
    }
}

/// Writes bytes from a byte on.
fn set_at(block: &mut [u8], place: usize, bytes: &[u8])
    requires { place + length bytes.now ≤ length block.old }
    ensures bytes { block.new ≡ take place block.old ++ bytes.now ++ drop (place + length bytes.now) block.old }
    ensures len { length block.new ≡ length block.old }
{
    block[place..place + bytes.len()].copy_from_slice(bytes);
}

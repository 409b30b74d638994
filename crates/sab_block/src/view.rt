//! Views, and the places of their elements.

ghost use Rattle.std.specs.Prelude.{◌≡◌, ◌+◌, ◌*◌, ◌<◌, ◌≤◌, ◌↔◌, Ok, Err, IsTrue, IfOk, IsOkAnd, MatchOption};
ghost use Rattle.sab_block.specs.declared.thrown.Thrown.TheVariants.{RangeError};
ghost use Rattle.sab_block.specs.Kind.{element_size};

use crate::kind::Kind;
use crate::thrown::Thrown;

/// A typed array: the elements of one kind that lie one after the other in a block.
///
/// It is made for blocks of one length, and holds no block.
#[derive(Clone, Copy, Debug, PartialEq, Eq)]
pub struct View {
    kind: Kind,
    block_len: u32,
    offset: u32,
    len: u32,
    ghost inside: { offset + len * element_size kind ≤ block_len },
}

impl View {
    ghost use Rattle.sab_block.specs.View.{kind_of, block_len_of, offset_of, len_of, count, place, IsViewOf};

    /// A view of a block of `block_len` bytes, from byte `offset` on, of `length` elements or, without a length, of all
    /// that are left (InitializeTypedArrayFromArrayBuffer).
    ///
    /// RangeError exactly where the offset or the length is negative, where the offset is no multiple of the element
    /// size, where the elements would pass the block's end, or where there is no length and the block's own is no
    /// multiple of the element size.
    pub fn new(kind: Kind, block_len: u32, offset: i64, length: Option<i64>) -> Result<View, Thrown>
        ensures { MatchOption (count kind block_len offset length)
            (result ≡ Err RangeError)
            (λ n. IsOkAnd result (IsViewOf kind block_len offset n)) }
    {
        let size = kind.size();
        let Ok(offset) = u32::try_from(offset) else {
            return Err(Thrown::RangeError);
        };
        if offset % size != 0 || block_len < offset {
            return Err(Thrown::RangeError);
        }
        let room = (block_len - offset) / size;
        let len = match length {
            Some(length) if 0 <= length && length <= i64::from(room) => length as u32,
            None if block_len % size == 0 => room,
            _ => return Err(Thrown::RangeError),
        };
        Ok(View {
            kind,
            block_len,
            offset,
            len,
        })
    }

    /// The kind of its elements (\[\[TypedArrayName\]\]).
    pub fn kind(self) -> Kind
        ensures { result ≡ kind_of self }
    {
        self.kind
    }

    /// The length, in bytes, of the blocks that it is made for.
    pub fn block_len(self) -> u32
        ensures { result ≡ block_len_of self }
    {
        self.block_len
    }

    /// The byte at which its first element begins (\[\[ByteOffset\]\]).
    pub fn offset(self) -> u32
        ensures { result ≡ offset_of self }
    {
        self.offset
    }

    /// The number of its elements (\[\[ArrayLength\]\]).
    pub fn len(self) -> u32
        ensures { result ≡ len_of self }
    {
        self.len
    }

    /// Whether it has no element.
    pub fn is_empty(self) -> bool
        ensures { IsTrue result ↔ (len_of self ≡ 0) }
    {
        self.len == 0
    }

    /// The byte at which the element of an index begins (ValidateAtomicAccess).
    ///
    /// RangeError exactly where the index is negative or at least the number of elements.
    pub fn place(self, index: i64) -> Result<u32, Thrown>
        ensures place { MatchOption (place self index) (result ≡ Err RangeError) (λ p. result ≡ Ok p) }
        ensures inside { IfOk result (λ p. p + element_size (kind_of self) ≤ block_len_of self) }
    {
        if index < 0 || i64::from(self.len) <= index {
            return Err(Thrown::RangeError);
        }
        Ok(self.offset + index as u32 * self.kind.size())
    }
}

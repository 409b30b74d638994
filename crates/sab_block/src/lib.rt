//! Shared blocks of bytes, the integer typed arrays on them, and the accesses of `Atomics`.
//!
//! A [`Kind`] says what an element is, a [`View`] where elements lie in a block, an [`Operand`] what a call is handed
//! or returns, and [`Block::access`] makes one access as a whole. The rules are those of ECMA-262, 14th edition.
#![tactic(auto)]

mod access;
mod block;
mod check;
mod kind;
mod operand;
mod rmw_op;
mod thrown;
mod view;

pub use access::Access;
pub use block::Block;
pub use check::{Check, access_place};
pub use kind::Kind;
pub use operand::{Operand, agrees, from_raw, to_raw, wrapped};
pub use rmw_op::RmwOp;
pub use thrown::Thrown;
pub use view::View;

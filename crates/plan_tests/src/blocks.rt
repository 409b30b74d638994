//! Blocks of bytes, and what accesses on them are made of.

mod kinds;
mod operands;
mod views;

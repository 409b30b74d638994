//! A run as a picture.
#![tactic(auto)]

mod arrows;
mod bars;
mod blocks;
mod change;
mod class;
mod done;
mod drawing;
mod ends;
mod entry;
mod frame;
mod measuring;
mod picture;
mod pieces;
mod shape;
pub mod xml;

pub use picture::Picture;

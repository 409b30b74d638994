//! Texts in XML.

mod escaping;

pub use escaping::push_escaped;

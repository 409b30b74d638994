//! The explained text of a report: each line of the plain one, and behind it in words what happened.

mod call_text;
mod column;
mod counts;
mod explained;
mod fact_format;
mod layout;
mod name;
mod outcome_text;
mod reason_text;
mod standing;
mod standings;
mod waiting_text;
mod words;

pub use call_text::{CALL_LEN, ELEMENT_LEN, push_call, push_element, push_name};
pub use column::Column;
pub use explained::{WORDS_LEN, push_explained, push_words};
pub use fact_format::FactFormat;
pub use layout::Layout;
pub use name::Name;
pub use outcome_text::is_same;
pub use standing::{STANDING_LEN, push_standing, push_standing_words};
pub use standings::standing_at;
pub use words::Words;

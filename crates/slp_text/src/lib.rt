//! Texts, rows and keys, which contracts see as lists; escapes, and how a text is read to its first fault.
#![tactic(auto)]

mod ascii;
mod cutting;
mod escapes;
mod faults;
mod folding;
mod keys;
pub mod laws;
mod rows;
mod texts;

pub use ascii::word_key;
pub use cutting::cut;
pub use escapes::{
    Place, Stage, Step, capital_digit, escape_into, is_refused, is_reserved, read_step, unescape,
    unescape_all, unescape_any, unescape_at,
};
pub use faults::{NoMemory, TextFault};
pub use folding::{
    folded, is_blank, is_white_byte, is_white_space, key, squeeze, trim, trim_start,
};
pub use keys::Key;
pub use rows::Row;
pub use texts::Text;

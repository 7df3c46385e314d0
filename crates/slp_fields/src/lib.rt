//! The fields of a body (RFC 2608, sections 4.3, 8 and 9): reading one, and writing a list of them.
#![tactic(auto)]

mod fault;
mod field;
mod lengths;
mod reading;
mod skipping;
mod writing;

pub use fault::WireFault;
pub use field::Field;
pub use lengths::{LONGEST, entry_length, with_fields};
pub use reading::{
    after_no_block, after_no_index, authority_view_of, entry_view_of, listing_of, long_of,
    number_of, str_of, text_of,
};
pub use skipping::skip_fields;
pub use writing::{append, put_entry, put_fields};

//! Operands: what the values of attributes are compared with.
#![tactic(auto)]

mod operand;

pub use operand::Operand;

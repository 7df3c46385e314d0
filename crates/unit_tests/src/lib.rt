//! Tests of what no clause says and no row of data shows: of the libraries, of what is done where memory is refused, and of clients and
//! programs that readers and writers serve as they are told. They stand in one crate, since a crate with tests is proved twice.
#![tactic(auto)]

#[cfg(test)]
mod assertion;
#[cfg(test)]
mod libraries;
#[cfg(test)]
mod programs;
#[cfg(test)]
mod refusals;
#[cfg(test)]
mod tables;

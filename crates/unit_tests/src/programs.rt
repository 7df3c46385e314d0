//! Clients without a socket, and programs whose readers and writers do as they are told.
mod calls;
mod clients;
mod fakes;
mod messages;
mod replays;
mod streams;

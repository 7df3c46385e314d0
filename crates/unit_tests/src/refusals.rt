//! What happens where memory is refused: to changes that are made, to single steps, to a directory that is published, and to replays.
//! Here all memory is refused while a call runs. The tests that survive a refusal in the midst of a call are for `make refusals`,
//! which refuses each of their requests in turn; here nothing is refused to them.
mod changes;
mod hoard;
mod lent;
mod messages;
mod published;
mod replays;
mod site;
mod steps;

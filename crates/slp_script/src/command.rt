use slp_text::Row;

/// A command of one line.
#[derive(Drop)]
pub enum Order {
    /// Nothing: the line is empty.
    Blank,
    /// It is this moment, in seconds.
    At(u32),
    /// Messages come from this address.
    From(u32),
    /// Messages come to this loop, counted from 1.
    Loop(u32),
    /// This datagram came.
    Udp(Row<u8>),
    /// A stream begins.
    Open,
    /// These bytes came on the stream.
    Tcp(Row<u8>),
    /// What is dead is swept.
    Sweep,
}

/// What the lines of a block are: those between a line that is its word and a line that is a dot.
#[derive(Clone, Copy)]
pub enum Block {
    /// The site is another one, by a configuration.
    Config,
    /// The site gets one template more.
    Template,
    /// Other rules decide, by a rule file.
    Rules,
}

ghost use Rattle.slp_messages.specs.Tags.{IsTag};

/// A readable header, borrowed from the bytes that it was read from.
#[derive(Clone, Copy)]
pub struct HeaderView<'a> {
    pub version: u8,
    pub function: u8,
    /// The length of the whole message in bytes, as the header says it.
    pub length: u32,
    /// All flags, reserved ones too.
    pub flags: u16,
    /// Where the first extension begins, in bytes from the message's first. 0 is none.
    pub ext: u32,
    pub xid: u16,
    pub language: &'a str,
    ghost readable: { IsTag language.now },
}

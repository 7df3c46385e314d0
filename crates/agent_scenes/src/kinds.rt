//! The kinds of rows, by their first words.

/// What a row does. `CONTRIBUTING.md` says it of each word.
#[derive(Clone, Copy)]
pub(crate) enum Row {
    Place(PlaceRow),
    Prepare(PrepareRow),
    Stream(StreamRow),
    Agent(AgentRow),
    Tool(ToolRow),
    None,
}

#[derive(Clone, Copy)]
pub(crate) enum PlaceRow {
    At,
    From,
    Near,
    Xid,
    Clock,
    Steady,
}

/// How a directory that is none answers: as another sender, itself, or on a stream.
#[derive(Clone, Copy)]
pub(crate) enum Way {
    Stray,
    Reply,
    Piece,
}

#[derive(Clone, Copy)]
pub(crate) enum PrepareRow {
    File,
    Site,
    Remove,
    Taken,
    Answer(Way),
    Deaf,
    NoFiles,
    Files,
}

#[derive(Clone, Copy)]
pub(crate) enum StreamRow {
    Open,
    Send,
    Take,
    Still,
    Close,
    Reset,
    Datagrams,
    Streams,
    Messages,
    Replies,
}

#[derive(Clone, Copy)]
pub(crate) enum AgentRow {
    Udp,
    Quiet,
    Hold,
    Held,
    Release,
    Log,
    /// A line is typed, and this after it.
    Console(&'static str),
    TwoLoopsAtOnce,
    Enter,
    EnterBeside,
    Leave,
    Pause,
    Idle,
}

#[derive(Clone, Copy)]
pub(crate) enum ToolRow {
    Tool,
    Keep,
    Call,
    Serve,
    Silent,
    Sockets,
    Check,
}

/// The rows by their words.
static ROWS: [(&str, Row); 47] = [
    ("at", Row::Place(PlaceRow::At)),
    ("from", Row::Place(PlaceRow::From)),
    ("near", Row::Place(PlaceRow::Near)),
    ("xid", Row::Place(PlaceRow::Xid)),
    ("clock", Row::Place(PlaceRow::Clock)),
    ("steady", Row::Place(PlaceRow::Steady)),
    ("file", Row::Prepare(PrepareRow::File)),
    ("site", Row::Prepare(PrepareRow::Site)),
    ("remove", Row::Prepare(PrepareRow::Remove)),
    ("taken", Row::Prepare(PrepareRow::Taken)),
    ("stray", Row::Prepare(PrepareRow::Answer(Way::Stray))),
    ("reply", Row::Prepare(PrepareRow::Answer(Way::Reply))),
    ("piece", Row::Prepare(PrepareRow::Answer(Way::Piece))),
    ("deaf", Row::Prepare(PrepareRow::Deaf)),
    ("no-files", Row::Prepare(PrepareRow::NoFiles)),
    ("files", Row::Prepare(PrepareRow::Files)),
    ("open", Row::Stream(StreamRow::Open)),
    ("send", Row::Stream(StreamRow::Send)),
    ("take", Row::Stream(StreamRow::Take)),
    ("still", Row::Stream(StreamRow::Still)),
    ("close", Row::Stream(StreamRow::Close)),
    ("reset", Row::Stream(StreamRow::Reset)),
    ("datagrams", Row::Stream(StreamRow::Datagrams)),
    ("streams", Row::Stream(StreamRow::Streams)),
    ("messages", Row::Stream(StreamRow::Messages)),
    ("replies", Row::Stream(StreamRow::Replies)),
    ("udp", Row::Agent(AgentRow::Udp)),
    ("quiet", Row::Agent(AgentRow::Quiet)),
    ("hold", Row::Agent(AgentRow::Hold)),
    ("held", Row::Agent(AgentRow::Held)),
    ("release", Row::Agent(AgentRow::Release)),
    ("log", Row::Agent(AgentRow::Log)),
    ("console", Row::Agent(AgentRow::Console("\n"))),
    ("unended", Row::Agent(AgentRow::Console(""))),
    ("two_loops_at_once", Row::Agent(AgentRow::TwoLoopsAtOnce)),
    ("enter", Row::Agent(AgentRow::Enter)),
    ("enter_beside", Row::Agent(AgentRow::EnterBeside)),
    ("leave", Row::Agent(AgentRow::Leave)),
    ("pause", Row::Agent(AgentRow::Pause)),
    ("idle", Row::Agent(AgentRow::Idle)),
    ("tool", Row::Tool(ToolRow::Tool)),
    ("keep", Row::Tool(ToolRow::Keep)),
    ("call", Row::Tool(ToolRow::Call)),
    ("serve", Row::Tool(ToolRow::Serve)),
    ("silent", Row::Tool(ToolRow::Silent)),
    ("sockets", Row::Tool(ToolRow::Sockets)),
    ("check", Row::Tool(ToolRow::Check)),
];

impl Row {
    /// The row that a word begins.
    pub(crate) fn of(word: &str) -> Row {
        for (name, row) in &ROWS {
            if *name == word {
                return *row;
            }
        }
        Row::None
    }
}

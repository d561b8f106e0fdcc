//! How the program may end, and the number and line that tell it.

/// How the program ended.
#[derive(Clone, Copy, Debug, PartialEq, Eq)]
pub enum Status {
    /// All of the input was read, and its lines answered; or all that was asked for was written.
    Done,
    /// The words of the command line are outside the grammar.
    Usage,
    /// The source failed.
    ReadFault,
    /// `out` failed, or took nothing.
    WriteFault,
    /// There was no memory.
    Memory,
    /// The input is as long as its limit, or longer.
    TooMuch,
    /// The words ask for a server on this port, with so many workers, and nothing was read or written.
    Serve { port: u16, workers: u16 },
    /// The system gives no port to listen on, or nothing to wait by.
    ListenFault,
    /// A server can't go on: a worker has no thread, or it or the acceptor has nothing to wait by any more.
    ServeFault,
    /// The words ask for a server on this port, with so many workers, that keeps a journal, and nothing was read or written.
    ServeJournal { port: u16, workers: u16 },
    /// The file of the journal can't be opened, read or written.
    JournalFault,
    /// The file is no journal.
    NotJournal,
    /// The journal is damaged: at this byte, counted from 0, no entry and no end of it stands.
    Damaged { at: u64 },
    /// The journal's entry of this number, counted from 0, isn't one that could come in its place.
    Illegal { at: u64 },
    /// The input is no policy document, or an unsound one.
    DocumentRefused,
}

impl Status {
    ghost use Rattle.std.specs.Prelude.{◌≡◌};
    ghost use Rattle.pm_run.specs.Statuses.{status_number, status_place, status_text};

    /// The number that the process ends with. Those of Serve and ServeJournal are for a server that ends.
    pub fn number(self) -> u8
        ensures { result ≡ status_number self }
    {
        match self {
            Status::Done | Status::Serve { .. } | Status::ServeJournal { .. } => 0,
            Status::Usage => 2,
            Status::ReadFault => 3,
            Status::WriteFault => 4,
            Status::Memory => 5,
            Status::TooMuch => 6,
            Status::ListenFault => 7,
            Status::JournalFault => 8,
            Status::NotJournal | Status::Damaged { .. } | Status::Illegal { .. } => 9,
            Status::DocumentRefused => 10,
            Status::ServeFault => 11,
        }
    }

    /// The line that says why it ended so; of Damaged and Illegal the part before the number. Nothing for Done, Serve and ServeJournal.
    pub fn text(self) -> &'static str
        ensures { result.now ≡ status_text self }
    {
        match self {
            Status::Done | Status::Serve { .. } | Status::ServeJournal { .. } => "",
            Status::Usage => {
                "usage: ngac run | ngac generate N | ngac serve PORT WORKERS | ngac serve-journal PORT WORKERS FILE | ngac request-lines | ngac export\n"
            }
            Status::ReadFault => "ngac: read failed\n",
            Status::WriteFault => "ngac: write failed\n",
            Status::Memory => "ngac: out of memory\n",
            Status::TooMuch => "ngac: too much input\n",
            Status::ListenFault => "ngac: listen failed\n",
            Status::ServeFault => "ngac: serving failed\n",
            Status::JournalFault => "ngac: journal failed\n",
            Status::NotJournal => "ngac: not a journal\n",
            Status::Damaged { .. } => "ngac: journal damaged at ",
            Status::Illegal { .. } => "ngac: journal illegal at ",
            Status::DocumentRefused => "ngac: document refused\n",
        }
    }

    /// The number that ends the line of Damaged and Illegal.
    pub fn place(self) -> Option<u64>
        ensures { result ≡ status_place self }
    {
        match self {
            Status::Damaged { at } | Status::Illegal { at } => Some(at),
            _ => None,
        }
    }
}

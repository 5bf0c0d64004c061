//! How a run over files ends that nothing stops.

/// How a run over files ends that nothing stops, or what came of one file: from the best to the worst.
#[derive(Clone, Copy, Debug, PartialEq, Eq)]
pub enum Status {
    /// Each file was linted, and nothing was reported.
    Clean,
    /// Each file was linted, and something was reported.
    Found,
    /// A file is not UTF-8.
    NotUtf8,
    /// A file, or a statement of one, could not be parsed.
    Unparsed,
    /// A file could not be read.
    Unreadable,
}

impl Status {
    ghost use Rattle.std.specs.Prelude.{◌≡◌};
    ghost use Rattle.checked_file.specs.Statuses.{code_of, forgiven, worse};

    /// The exit status of the program.
    pub fn code(self) -> u8
        ensures { result ≡ code_of self }
    {
        match self {
            Status::Clean => 0,
            Status::Found => 1,
            Status::NotUtf8 => 3,
            Status::Unparsed => 4,
            Status::Unreadable => 5,
        }
    }

    /// The status where reports are to fail no run: `Clean` in place of `Found`.
    pub fn forgiven(self) -> Status
        ensures { result ≡ forgiven self }
    {
        match self {
            Status::Clean | Status::Found => Status::Clean,
            Status::NotUtf8 | Status::Unparsed | Status::Unreadable => self,
        }
    }

    /// The worse of two.
    pub fn worse(self, other: Status) -> Status
        ensures { result ≡ worse self other }
    {
        if self.code() < other.code() {
            other
        } else {
            self
        }
    }
}

// How a command ends.
ghost use Rattle.std.specs.Prelude.{◌≡◌};
ghost use Rattle.reports.specs.Statuses as specs;

/// How a command ends.
///
/// `Done`: every goal is scheduled. `Missing`: some goal has no schedule. `Spent`: some goal spent a budget. `NoWorld`:
/// some goal's axioms hold in no world. The others are refusals: of the words, of the text, for no memory, and of the
/// source and the sink.
#[derive(Clone, Copy, PartialEq, Eq)]
pub enum Status {
    Done,
    Missing,
    Usage,
    ReadFault,
    Spent,
    Memory,
    SourceFault,
    SinkFault,
    NoWorld,
}

impl Status {
    /// The program's exit status, 0 to 8.
    pub fn code(self) -> u8
        ensures { result ≡ specs.status_code self }
    {
        match self {
            Status::Done => 0,
            Status::Missing => 1,
            Status::Usage => 2,
            Status::ReadFault => 3,
            Status::Spent => 4,
            Status::Memory => 5,
            Status::SourceFault => 6,
            Status::SinkFault => 7,
            Status::NoWorld => 8,
        }
    }

    /// The one of two statuses that has the greater code.
    pub fn or_greater(self, other: Status) -> Status
        ensures { result ≡ specs.greater self other }
    {
        if self.code() < other.code() {
            other
        } else {
            self
        }
    }
}

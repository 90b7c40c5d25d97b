// How a run ended.
ghost use Rattle.std.specs.Prelude.{◌≡◌, ℕ};

/// How a run ended.
#[derive(Clone, Copy, PartialEq, Eq, Debug)]
pub enum Status {
    /// The answer was written.
    Done,
    /// The input is no job of the form.
    BadInput,
    /// A premise on the fields does not hold.
    Premise,
    /// A limit is passed.
    Limit,
    /// The source failed.
    ReadFault,
    /// The sink failed, after a part of the text.
    WriteFault,
    /// There was no memory, and nothing was written.
    NoMemory,
    /// The words are no form.
    Usage,
}

impl Status {
    ghost use Rattle.ff_top.specs.Exits.{exit_of};

    /// The exit number of the program.
    pub fn exit(self) -> u8
        ensures { result ≡ exit_of self }
    {
        match self {
            Status::Done => 0,
            Status::BadInput => 1,
            Status::Premise => 2,
            Status::Limit => 3,
            Status::ReadFault => 4,
            Status::WriteFault => 5,
            Status::NoMemory => 6,
            Status::Usage => 64,
        }
    }
}

ghost use Rattle.std.specs.Prelude.{◌≡◌};

/// How a run ends.
#[derive(Clone, Copy, Debug, PartialEq, Eq)]
pub enum Status {
    /// Nothing is wrong.
    Done,
    /// Some statement breaks a rule.
    Rejected,
    /// The words are of no known form.
    Usage,
    /// Some statement is outside what asmck knows, and none breaks a rule.
    Undecided,
    /// A file could not be read.
    ReadFault,
    /// A file or the output could not be written.
    WriteFault,
    /// A file is no text of C tokens.
    BadText,
    /// A file has more than 16 MiB.
    TooLarge,
    /// Memory ran out.
    Memory,
}

impl Status {
    ghost use Rattle.ck_app.specs.Status.{code_of};
    ghost use Rattle.ck_app.specs.FilesAnswer.{ends_run, status_after};

    /// The exit status of the process.
    pub fn code(&self) -> u8
        ensures { result ≡ code_of self.now }
    {
        match self {
            Status::Done => 0,
            Status::Rejected => 1,
            Status::Usage => 2,
            Status::Undecided => 3,
            Status::ReadFault => 4,
            Status::WriteFault => 5,
            Status::BadText => 6,
            Status::TooLarge => 7,
            Status::Memory => 8,
        }
    }

    /// Whether a file that ends so ends the run.
    pub fn ends_run(self) -> bool
        ensures { result ≡ ends_run self }
    {
        match self {
            Status::Done | Status::Rejected | Status::Undecided => false,
            _ => true,
        }
    }

    /// How a run ends whose earlier files end like this, and whose later ones like that.
    pub fn followed_by(self, later: Status) -> Status
        ensures { result ≡ status_after self later }
    {
        match (self, later) {
            (earlier, Status::Done) => earlier,
            (Status::Rejected, Status::Undecided) => Status::Rejected,
            (_, later) => later,
        }
    }
}

// How the program ends.
ghost use Rattle.std.specs.Prelude.{◌≡◌};
ghost use Rattle.anyon_app.specs.Replies.{code_of};

/// How the program ends.
#[derive(Clone, Copy, Debug, PartialEq, Eq)]
pub enum Status {
    /// The whole report was written.
    Done,
    /// A text, a category or a program is refused. One line that begins with `refused` was written.
    Refused,
    /// The words of the command line have no listed form. Nothing was written.
    Usage,
    /// A read of a text failed. Nothing was written.
    ReadFault,
    /// The sink failed after a prefix of what was to be written.
    WriteFault,
    /// A number or a state is too large. One line that begins with `limit` was written.
    Limit,
    /// There was no memory. Nothing was written.
    NoMemory,
}

impl Status {
    /// The exit code of the program, from 0 to 6 in the order of the variants.
    pub fn code(&self) -> u8
        ensures { result ≡ code_of self.now }
    {
        match self {
            Status::Done => 0,
            Status::Refused => 1,
            Status::Usage => 2,
            Status::ReadFault => 3,
            Status::WriteFault => 4,
            Status::Limit => 5,
            Status::NoMemory => 6,
        }
    }
}

//! Exit statuses.

ghost use Rattle.std.specs.Prelude.{◌≡◌};
ghost use Rattle.edf_cli.specs.Status.{exit_code, status_of_number, worse};

/// The exit status of a command.
#[derive(Clone, Copy, Debug, PartialEq, Eq, Drop)]
pub enum Status {
    /// All was done.
    Done,
    /// A file was refused; or there is no such recording or run; or a file that was to be made is
    /// there already.
    Refused,
    /// The words ask for nothing that can be done.
    Usage,
    /// E40 to E43 or E45 was met, or a line could not be written, or a file could not be removed.
    Trouble,
}

impl Status {
    /// Returns the program's exit status: 0 to 3.
    pub fn code(self) -> u8
        ensures { result ≡ exit_code self }
    {
        match self {
            Status::Done => 0,
            Status::Refused => 1,
            Status::Usage => 2,
            Status::Trouble => 3,
        }
    }
}

/// Returns the worse of two statuses: that with the higher number.
pub fn worse(status: Status, other: Status) -> Status
    ensures { result ≡ worse status other }
{
    if status.code() < other.code() {
        other
    } else {
        status
    }
}

/// Returns the status for a refusal by its number: `Trouble` for 40 to 43 and 45, else `Refused`.
pub fn status_of_number(number: u8) -> Status
    ensures { result ≡ status_of_number number }
{
    match number {
        40..=43 | 45 => Status::Trouble,
        _ => Status::Refused,
    }
}

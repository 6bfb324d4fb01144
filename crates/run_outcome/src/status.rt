//! How a run of the program ends.

ghost use Rattle.std.specs.Prelude.{◌≡◌};
ghost use Rattle.run_outcome.specs.Statuses.{status_code};

use close_rules::ImageRule;

/// How a run of the program ends.
#[derive(Clone, Copy, PartialEq, Eq)]
pub enum Status {
    /// 0: all is done, and the input was read to its end.
    Done,
    /// 2: the words are no command.
    Usage,
    /// 3: a record, a history or a query was refused by name.
    Refused,
    /// 4: a read failed.
    ReadFault,
    /// 5: a write failed, or took nothing.
    WriteFault,
    /// 6: a call on the volume failed.
    DiskFault,
    /// 7: what is open on the volume is no store, at this offset of this file.
    BadStore { file: u8, place: u64 },
    /// 8: memory was refused.
    NoMemory,
    /// 9: at this byte of the input no image, record, history or query goes on.
    BadInput { at: u128 },
    /// 10: the image breaks this rule, the first one that it breaks.
    BadImage { rule: ImageRule },
    /// 11: no image is open on the volume.
    Missing,
    /// 12: an image is open on the volume.
    AlreadyThere,
    /// 13: a file of a history would be too long.
    TooLarge,
}

impl Status {
    /// The exit status of the process.
    pub fn code(self) -> u8
        ensures { result ≡ status_code self }
    {
        match self {
            Status::Done => 0,
            Status::Usage => 2,
            Status::Refused => 3,
            Status::ReadFault => 4,
            Status::WriteFault => 5,
            Status::DiskFault => 6,
            Status::BadStore { .. } => 7,
            Status::NoMemory => 8,
            Status::BadInput { .. } => 9,
            Status::BadImage { .. } => 10,
            Status::Missing => 11,
            Status::AlreadyThere => 12,
            Status::TooLarge => 13,
        }
    }
}

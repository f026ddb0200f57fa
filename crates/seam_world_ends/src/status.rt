ghost use Rattle.std.specs.Prelude.{◌≡◌, ◌≢◌, ◌↔◌, [], MatchBool};
ghost use Rattle.seam_world_ends.specs.Status.{code_of};

/// How a run ended.
#[derive(Clone, Copy, Debug, PartialEq, Eq)]
pub enum Status {
    /// The input was read to its end, and every round was printed.
    Done,
    /// The words of the command line were refused.
    Usage,
    /// The header was refused, with the number of the cause: 1 to 9 as `HeaderError` of `seam_toml` has them, 9 also where a line
    /// of it is too long, and 10 where the input ended before it did.
    BadHeader(u8),
    /// The source failed.
    ReadFault,
    /// The sink failed.
    WriteFault,
    /// 2^40 bytes were taken, and no line is left in them.
    Limit,
    /// No memory was left.
    NoMemory,
}

impl Status {
    /// The exit status of a program that ended so, from 0 to 6.
    pub fn code(self) -> u8
        ensures { result ≡ code_of self }
    {
        match self {
            Status::Done => 0,
            Status::Usage => 1,
            Status::BadHeader(_) => 2,
            Status::ReadFault => 3,
            Status::WriteFault => 4,
            Status::Limit => 5,
            Status::NoMemory => 6,
        }
    }

    /// What a person may do about the end of a run, in one line without its line feed: nothing where all went well. The
    /// words of the command line have their own text, `usage_text` of `seam_args`.
    pub fn message(self) -> &'static str
        ensures { (result.now ≡ []) ↔ (self ≡ Status.Done) }
    {
        match self {
            Status::Done => "",
            Status::Usage => "these words are not understood; see docs/FORMATS.md",
            Status::BadHeader(cause) => header_message(cause),
            Status::ReadFault =>
                "the input could not be read on; what was read until then is answered, so run the rest again",
            Status::WriteFault =>
                "the output could not be written; see that its disk or its reader has room, and run again",
            Status::Limit =>
                "the input has 2^40 bytes or more; divide it into scripts that are shorter",
            Status::NoMemory =>
                "no memory is left; what was written is whole, so run on a larger machine, or with fewer entities",
        }
    }
}

// What is wrong with a header that has this fault.
fn header_message(cause: u8) -> &'static str
    ensures { result.now ≢ [] }
{
    match cause {
        1 => "the header is not in the form of TOML; see docs/FORMATS.md",
        2 =>
            "the header has a key or a name that it may not have, or lacks one that it needs; see docs/FORMATS.md",
        3 =>
            "a value in the header has another type than its key, or lies out of range; see docs/FORMATS.md",
        4 =>
            "a property in the header has a flag that is not one of the eight; see docs/FORMATS.md",
        5 => "a default in the header does not fit the type of its property; see docs/FORMATS.md",
        6 => "an operation of a method in the header is not one that there is; see docs/FORMATS.md",
        7 =>
            "the header has more types, properties, methods, arguments or operations than may be; see docs/FORMATS.md",
        8 =>
            "the header needs a ghost_distance of view_radius + view_hysteresis + offload_hysteresis or more",
        9 =>
            "the header has more than 65,536 bytes, or a line of more than 4,096; see docs/FORMATS.md",
        _ => "the input has no line \"%%\" that ends its header; see docs/FORMATS.md",
    }
}

/// Whether the run ended well.
pub fn is_done(status: Status) -> bool
    ensures { MatchBool result (status ≡ Status.Done) (status ≢ Status.Done) }
{
    match status {
        Status::Done => true,
        _ => false,
    }
}

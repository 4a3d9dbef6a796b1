ghost use Rattle.std.specs.Prelude.{◌≡◌};
ghost use Rattle.itron.specs.Messages.{cause_word_of, exit_code_of, message_of};

use s_script::Why;

/// How a run of the program ended.
#[derive(Clone, Copy, Debug, PartialEq, Eq)]
pub enum Status {
    /// The whole output was written.
    Ok,
    /// The command line is faulty.
    Usage,
    /// The input is no script: its first wrong line, counted from 1, and the first cause for which it is wrong.
    Script(usize, Why),
    /// The input could not be read.
    ReadFault,
    /// The output could not be written.
    WriteFault,
    /// The whole output was written, and its history is full without the stop.
    TooLong,
    /// Memory was refused.
    NoMemory,
    /// The input is longer than 1,048,576 bytes.
    TooBig,
}

impl Status {
    /// The exit code of the program.
    pub fn exit_code(self) -> u8
        ensures { result ≡ exit_code_of self }
    {
        match self {
            Status::Ok => 0,
            Status::Usage => 2,
            Status::Script(_, _) => 3,
            Status::ReadFault => 4,
            Status::WriteFault => 5,
            Status::TooLong => 6,
            Status::NoMemory => 7,
            Status::TooBig => 10,
        }
    }

    /// What standard error is told of it, without the end of the line: nothing where all went well, and of a script that is
    /// wrong the cause alone.
    pub fn message(self) -> &'static str
        ensures { result.now ≡ message_of self }
    {
        match self {
            Status::Ok => "",
            Status::Usage => "usage: itron sim, audit, shape, run or gen N",
            Status::Script(_, why) => cause_word(why),
            Status::ReadFault => "read fault",
            Status::WriteFault => "write fault",
            Status::TooLong => "history too long",
            Status::NoMemory => "out of memory",
            Status::TooBig => "input too big",
        }
    }
}

/// The word of a cause.
pub fn cause_word(why: Why) -> &'static str
    ensures { result.now ≡ cause_word_of why }
{
    match why {
        Why::Form => "form",
        Why::Range => "range",
        Why::Twice => "twice",
        Why::Nest => "nest",
        Why::Missing => "missing",
    }
}

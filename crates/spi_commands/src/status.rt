// How a call of `run` ends.
ghost use Rattle.std.specs.Prelude.{◌≡◌};

/// How a call of `run` ended.
#[derive(Clone, Copy, Debug, PartialEq, Eq)]
pub enum Status {
    /// What was asked is so, or was done.
    Yes,
    /// It isn't so.
    No,
    /// The bytes are refused, and the output says why.
    Refused,
    /// A read failed, and nothing was written.
    ReadFault,
    /// A write failed, and a prefix of the output was written.
    WriteFault,
    /// Memory ran out, and nothing was written.
    NoMemory,
    /// The words ask for no command.
    Usage,
}

impl Status {
    ghost use Rattle.spi_commands.specs.Code.{code_of};

    /// The status that the process ends with, from 0 to 6 in the order of the variants.
    pub fn code(self) -> u8
        ensures { result ≡ code_of self }
    {
        self as u8
    }
}

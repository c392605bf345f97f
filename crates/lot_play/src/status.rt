ghost use Rattle.std.specs.Prelude.{◌≡◌};
ghost use Rattle.lot_play.specs.Status.{status_number};

/// How a run ended. Its number is the status of the program.
#[derive(Clone, Copy, Debug, PartialEq, Eq)]
pub enum Status {
    /// All inputs were read to their end, and all output was written.
    Done = 0,
    /// The document was read whole, and is no JSON text or has a fault. The line that says so was written.
    Refused = 1,
    /// The arguments are no command, or the animation does not run at the time. Nothing was written.
    Usage = 2,
    /// The folder failed. Nothing was written.
    ReadFault = 3,
    /// The sink failed. It took a prefix of the output.
    WriteFault = 4,
    /// There was no memory. The sink took a prefix of the output.
    Memory = 5,
    /// The document has more than 16,777,216 bytes. Nothing was written.
    TooLong = 6,
}

impl Status {
    /// The number of the status, from 0 to 6.
    pub fn number(self) -> u8
        ensures { result ≡ status_number self }
    {
        self as u8
    }
}

ghost use Rattle.std.specs.Prelude.{◌≡◌, ◌+◌, ◌^◌, ◌<◌, if◌then◌else◌};

/// How far bytes were read, in bytes from the first of them.
#[derive(Clone, Copy)]
pub(crate) enum Progress {
    /// This many bytes were read, and more may follow them.
    Continues(usize),
    /// This many bytes were read, and no JSON text continues with the next one.
    Rejects(usize),
    /// This many bytes were read, and the next one is the end of what was read.
    Ends(usize),
}

impl Progress {
    /// The progress after `read` bytes and the next one, which continues them or is rejected.
    pub(crate) fn with_next(read: usize, continues: bool) -> Progress
        requires { read + 1 < 2 ^ 64 }
        ensures { result
            ≡ (if continues then Progress.Continues (read + 1) else Progress.Rejects read) }
    {
        if continues {
            Progress::Continues(read + 1)
        } else {
            Progress::Rejects(read)
        }
    }
}

use mm_log_check::Ending;

/// How the reading of a log comes to its end.
#[derive(Clone, Copy)]
pub enum Closing {
    /// As a check of the log does.
    Ended(Ending),
    /// This line of the script is missing, or can be no line as the log has it.
    Misfit(u32),
    /// This line has no answer, or one that it cannot have.
    Answer(u64),
    /// This answer is the first that is one too many.
    Surplus(u64),
    /// A write of what was told failed.
    OutFault,
}

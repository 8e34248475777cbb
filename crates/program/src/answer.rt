// What is answered to a command.

/// The answer to a command: the text that is printed, the record of its runs, and the exit status.
#[derive(Drop)]
pub struct Answer {
    /// The text that is printed.
    pub text: String,
    /// The text of the traces of its runs, where they are recorded.
    pub traces: String,
    /// The exit status.
    pub status: u8,
}

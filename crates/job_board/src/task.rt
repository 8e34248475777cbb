// What is posted, and what comes of it.

/// The number of a job on its board, from 1.
pub type JobNumber = u64;

/// A kind of jobs with their outcomes.
pub trait Task {
    /// The job that is posted.
    type Job: Drop + Send;
    /// What comes of a job.
    type Outcome: Drop + Send;
    // Which outcomes answer a job.
    ghost answers: { Self.Job → Self.Outcome → Type 0 };
}

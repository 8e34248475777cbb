// Why a job isn't handed out.

use crate::start::Start;
use body::Body;

/// Why a job isn't handed out, with the job where it isn't lost.
#[derive(Drop)]
pub enum HandOutFault<B: Body> {
    /// An allocation failed, or no worker has room for it: the job comes back.
    Memory(Start<B>),
    /// No thread can be started for a worker: the job comes back.
    NoWorker(Start<B>),
    /// No thread can be started for this job alone: the job is lost with it.
    Lost,
}

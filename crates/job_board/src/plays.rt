// The kinds of steps, and what each says to the seat that makes it. These types are for proofs alone.
ghost use Rattle.job_board.specs.Plays.{entered, looked, sought, claimed, gave_job, took_job, gave_outcome, took_outcome, shut};

use crate::task::Task;
use crate::view::{Content, View};
use atomic_table::Play;
use std::marker::PhantomData;

/// A hand's first look.
pub struct Enter;

impl<J, O> Play<Option<Content<J, O>>, View<J, O>> for Enter {
    ghost then = { entered };
}

/// A look.
pub struct Look;

impl<J, O> Play<Option<Content<J, O>>, View<J, O>> for Look {
    ghost then = { looked };
}

/// A look of the lead's.
pub struct Seek;

impl<J, O> Play<Option<Content<J, O>>, View<J, O>> for Seek {
    ghost then = { sought };
}

/// One of the lead's first looks, which makes the slot its own.
pub struct Claim;

impl<J, O> Play<Option<Content<J, O>>, View<J, O>> for Claim {
    ghost then = { claimed };
}

/// A job is posted.
pub struct Post;

impl<J, O> Play<Option<Content<J, O>>, View<J, O>> for Post {
    ghost then = { gave_job };
}

/// A job is taken, or the word is another by now.
pub struct Take;

impl<J, O> Play<Option<Content<J, O>>, View<J, O>> for Take {
    ghost then = { took_job };
}

/// A job is done.
pub struct Finish;

impl<J, O> Play<Option<Content<J, O>>, View<J, O>> for Finish {
    ghost then = { gave_outcome };
}

/// An outcome is collected.
pub struct Collect<T> {
    task: PhantomData<T>,
}

impl<T: Task> Play<Option<Content<T::Job, T::Outcome>>, View<T::Job, T::Outcome>> for Collect<T> {
    ghost then = { took_outcome T.answers };
}

/// The board is closed.
pub struct Close;

impl<J, O> Play<Option<Content<J, O>>, View<J, O>> for Close {
    ghost then = { shut };
}

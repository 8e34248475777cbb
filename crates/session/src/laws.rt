// What sessions tell of one another.

ghost use Rattle.std.specs.Prelude.{◌≡◌, false};
ghost use Rattle.session.specs.Live.{is_lost};
ghost use Rattle.session.specs.Replayed.{OneEntryIsReplayed, RecordsAreReplayed};
ghost use Rattle.session.specs.Lockstep.{AreAlike, AreInLockstep, IsReady, OneLineAgrees, OneReplyAgrees, PlaysAgree, RepliesAgree};

use crate::session::Session;
use body::Body;

/// Lockstep: in a settled schedule two sessions begin at states that agree, each on one thread or with room for
/// however many running systems. They reply the same to the same requests, and agree in the end. Their bodies mean
/// the same, and the states that they keep by name agree as well. Left out are `hello`, which may name the workers,
/// `save`, which shows ticks, and queries with an `added` or `changed` term, which compare them. So are the replies
/// `error`, which comes where an allocation fails, and `lost`, which comes where a run stops. So are inputs that
/// change the kinds of an entity where a query of the schedule has such a term.
pub fn replies_agree<B: Body, C: Body>()
    ensures one { OneReplyAgrees B.meaning C.meaning }
    ensures all { RepliesAgree B.meaning C.meaning }
{}

/// The same by lines: two such sessions reply the same to the same lines of text, one by one. This includes lines
/// that ask for nothing or are too long. They end by the same line.
pub fn plays_agree<B: Body, C: Body>()
    ensures one { OneLineAgrees B.meaning C.meaning }
    ensures all { PlaysAgree B.meaning C.meaning }
{}

/// Replays: what a session recorded, with its runs on however many threads, taken again on one thread by a session of the same file that kept the
/// same states, is replied as it was, and leads to the same state, stamp for stamp, and to the same kept states. Left out are states that were
/// loaded.
pub fn replayed<B: Body, C: Body>()
    ensures one { OneEntryIsReplayed B.meaning C.meaning }
    ensures all { RecordsAreReplayed B.meaning C.meaning }
{}

/// Each session that isn't lost meets the demands of lockstep on a session by itself. Its schedule is built, its
/// bodies keep within their parameters, and its states, also those that it keeps by name, are of the schedule.
pub fn session_is_ready<B: Body>(session: &Session<B>)
    ensures { is_lost session.now ≡ false → IsReady B.meaning session.now }
{
    session.engine.schedule().prove_law();
    let _spoiled = session.engine.is_spoiled();
    session.engine.state().prove_shape();
    session.marks.prove_shapes();
}

/// Take two sessions that aren't lost, of one schedule, whose bodies mean the same. They are in lockstep where their
/// states agree, and those that they keep by name.
pub fn alike_sessions_are_in_lockstep<B: Body, C: Body>(one: &Session<B>, other: &Session<C>)
    ensures { AreAlike B.meaning C.meaning one.now other.now
        → AreInLockstep B.meaning C.meaning one.now other.now }
{
    session_is_ready(one);
    session_is_ready(other);
}

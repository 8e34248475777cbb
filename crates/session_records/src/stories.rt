// A record as a story: its entries one after the other, and the worlds of what they ran.

ghost use Rattle.std.specs.Prelude.{◌≡◌, ◌++◌, ◌+◌, ◌<◌, ◌^◌, [], length, map, Some, IfOk, OnOk, string_bytes};
ghost use Rattle.engine.specs.Meanings.{AreFit};
ghost use Rattle.program.specs.Setup.{meanings_of_scripts, script_suits};
ghost use Rattle.session_records.specs.Stories.{HasToldEntry, IsRecordStory, cut_line, first_line, is_shown as is_shown_of, shown_line};

use findings::stories::{Story, tell_runs};
use script::ScriptBody;
use session::entry::Entry;
use session::replaying::{begin_again, next_entry, redo};
use session::{EntryFault, RecordFault, Session};
use std::alloc::{AllocError, Global};

/// The story of a record, which a session takes again from its state. It has the count of its entries and of their
/// runs. Each entry follows with its number and its line, and then the world after each sync point of what it ran. Where
/// a run is asked for, counted from 1, its worlds are shown, and the entries behind the run before it up to its own. An
/// entry that is cut short at the end is told as such.
pub fn story_of_record(
    alloc: Global,
    session: &mut Session<ScriptBody>,
    bodies: &mut [ScriptBody],
    journal: &[u8],
    asked: Option<u32>,
) -> Result<String, RecordFault>
    ensures { IfOk result (λ text. IsRecordStory (meanings_of_scripts
        session.old.engine.schedule bodies.old) asked session.old session.new journal.now
        (string_bytes text)) }
{
    let mut rest = begin_again(alloc, session, bodies, journal)?;
    let mut story = Story {
        text: String::new(alloc),
        runs: 0,
        asked,
    };
    for before in 0..usize::MAX {
        let Some((entry, behind)) = next_entry(alloc, rest, before)? else {
            return Ok(whole_text(alloc, &story, before, rest)?);
        };
        story = told_behind(alloc, session, bodies, &entry, before, story)?;
        rest = behind;
    }
    Err(RecordFault::Memory)
}

// The story with an entry more, the one behind so many.
fn told_behind(
    alloc: Global,
    session: &mut Session<ScriptBody>,
    bodies: &mut [ScriptBody],
    entry: &Entry<'_>,
    before: usize,
    story: Story,
) -> Result<Story, RecordFault>
    requires few { before + 1 < 2 ^ 64 }
    requires fit { AreFit script_suits session.old.engine.schedule (map Some bodies.old) }
    ensures told { IfOk result (HasToldEntry (meanings_of_scripts session.old.engine.schedule
        bodies.old) session.old session.new entry.now before story) }
    ensures schedule { OnOk result (session.new.engine.schedule ≡ session.old.engine.schedule) }
    ensures fit { OnOk result (AreFit script_suits session.old.engine.schedule (map Some bodies.new)) }
    ensures meanings { OnOk result (meanings_of_scripts session.old.engine.schedule bodies.new
        ≡ meanings_of_scripts session.old.engine.schedule bodies.old) }
{
    let number = before + 1;
    let runs = entry.traces();
    let shown = with_line(story, number, entry.line, runs.len())?;
    if session.engine().is_spoiled() {
        return Err(RecordFault::Bodies);
    }
    let start = session.engine().state().copy(alloc)?;
    let mut told = String::new(alloc);
    if let Err(fault) = redo(alloc, session, bodies, entry, &mut told) {
        return Err(RecordFault::at_entry(number, fault));
    }
    match tell_runs(
        alloc,
        session.engine().schedule(),
        bodies,
        start,
        runs,
        shown,
    ) {
        Ok(story) => Ok(story),
        Err(_) => Err(RecordFault::Memory),
    }
}

// The story with the line of an entry of so many runs, where it is shown. They are refused where runs can't be numbered any more.
fn with_line(story: Story, number: usize, line: &str, count: usize) -> Result<Story, RecordFault>
    ensures text { IfOk result (λ shown. string_bytes shown.text ≡ string_bytes story.text
        ++ shown_line (is_shown_of story.asked story.runs count) number line.now) }
    ensures same { IfOk result (λ shown. (shown.runs ≡ story.runs) × (shown.asked ≡ story.asked)) }
    ensures few { OnOk result (story.runs + count < 2 ^ 32) }
{
    let most = u32::MAX - story.runs;
    if count > most as usize {
        return Err(RecordFault::at_entry(number, EntryFault::Count));
    }
    let mut shown = story;
    if is_shown(shown.asked, shown.runs, count) {
        writeln!(shown.text, "== entry {number} {line}")?;
    }
    Ok(shown)
}

// Whether an entry is shown that stands behind so many runs, and has this many.
fn is_shown(asked: Option<u32>, before: u32, count: usize) -> bool
    ensures { result ≡ is_shown_of asked before count }
{
    match asked {
        Some(run) => before < run && (run - before) as usize <= count.max(1),
        None => true,
    }
}

// The whole story, of so many entries, behind which this is left of the record.
fn whole_text(
    alloc: Global,
    story: &Story,
    entries: usize,
    rest: &[u8],
) -> Result<String, AllocError>
    requires { entries + 1 < 2 ^ 64 }
    ensures { IfOk result (λ text. string_bytes text ≡ first_line entries story.now.runs
        ++ string_bytes story.now.text ++ cut_line entries rest.now) }
{
    let mut text = String::new(alloc);
    let runs = story.runs;
    writeln!(text, "entries {entries}, runs {runs}")?;
    text.push_str(story.text.as_str())?;
    if rest.is_empty() {
        return Ok(text);
    }
    let number = entries + 1;
    writeln!(text, "== entry {number} is cut short")?;
    Ok(text)
}

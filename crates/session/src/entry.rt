// The entries of a record, read from its text.

ghost use Rattle.std.specs.Prelude.{◌≡◌, ◌++◌, string_bytes, IfOk, IfSome};
ghost use Rattle.hex.specs.Hex.{encode_lower};
ghost use Rattle.session.specs.Body.{AreLines, ended};
ghost use Rattle.session.specs.Records.{IsReadEntry, head_line, traces_in};
ghost use Rattle.streams.specs.Lines.{IsUnended};

use crate::record_fault::EntryFault;
use executor_core::Trace;
use requests::{Load, Request, read_load, read_request};
use state_text::digest::hex_of;
use std::alloc::{AllocError, Global};
use std::str;
use trace_checker::read::read_traces;

/// What is recorded.
#[derive(Drop)]
pub enum Deed<'a> {
    /// A request, with the traces of what it ran.
    Does(Request<'a>, Vec<Trace>),
    /// A request to load, with the lines behind it.
    Loads(Load, &'a [u8]),
}

/// An entry of a record.
#[derive(Drop)]
pub struct Entry<'a> {
    /// The line of its request, as it was sent, without its end.
    pub line: &'a str,
    /// What is recorded of it.
    pub deed: Deed<'a>,
    /// The reply, as it was told.
    pub told: &'a [u8],
}

impl Entry<'_> {
    /// The traces of what it ran, in order.
    pub fn traces(&self) -> &[Trace]
        ensures { result.now ≡ traces_in self.now.deed }
    {
        match &self.deed {
            Deed::Does(_, traces) => traces.as_slice(),
            Deed::Loads(..) => &[],
        }
    }
}

// The first line of a record of the file with this digest.
pub(crate) fn head_of(alloc: Global, file: [u8; 32]) -> Result<String, AllocError>
    ensures { IfOk result (λ head. string_bytes head ≡ head_line file) }
{
    let digest = hex_of(file);
    format!(in alloc; "record 1 {digest}\n")
}

/// The first entry of a text, and what stands behind it. `Cut` where the text ends within it; `Unknown` where it asks
/// for nothing that can be asked, or no reply to what is done stands behind it. `Text` names what is wrong in its traces.
pub fn read_entry(alloc: Global, text: &[u8]) -> Result<(Entry<'_>, &[u8]), EntryFault>
    ensures { IfOk result (λ read. IsReadEntry text.now read.0 read.1.now) }
{
    let Some((line, rest)) = first_line(text) else {
        return Err(EntryFault::Cut);
    };
    let Ok(line) = str::from_utf8(line) else {
        return Err(EntryFault::Unknown);
    };
    if let Some(load) = read_load(line) {
        let Some((body, rest)) = first_lines(rest, load.lines) else {
            return Err(EntryFault::Cut);
        };
        let (told, behind) = first_reply(rest)?;
        let deed = Deed::Loads(load, body);
        return Ok((Entry { line, deed, told }, behind));
    }
    let front = split_traces(rest);
    let (told, behind) = first_reply(front.1)?;
    let request = read_request(alloc, line)?;
    let traces = read_traces(alloc, front.0)?;
    let deed = Deed::Does(request, traces);
    Ok((Entry { line, deed, told }, behind))
}

// The first line of a text, without its end, and what stands behind it. None where no line has an end.
fn first_line(text: &[u8]) -> Option<(&[u8], &[u8])>
    ensures { IfSome result (λ split. IsUnended split.0.now
        × (text.now ≡ ended split.0.now ++ split.1.now)) }
{
    let end = text.iter().position(|byte| *byte == b'\n')?;
    Some((&text[..end], &text[end + 1..]))
}

// So many first lines of a text, and what stands behind them.
fn first_lines(text: &[u8], count: u32) -> Option<(&[u8], &[u8])>
    ensures { IfSome result (λ split. AreLines count split.0.now
        × (text.now ≡ split.0.now ++ split.1.now)) }
{
    let mut rest = text;
    for _ in 0..count {
        let (_, behind) = first_line(rest)?;
        rest = behind;
    }
    Some(text.split_at(text.len() - rest.len()))
}

// The reply at the front of a text, `ok` with how many lines it shows and these lines, and what stands behind it.
fn first_reply(text: &[u8]) -> Result<(&[u8], &[u8]), EntryFault>
    ensures { IfOk result (λ split. text.now ≡ split.0.now ++ split.1.now) }
{
    let Some((line, rest)) = first_line(text) else {
        return Err(EntryFault::Cut);
    };
    let Some(count) = count_of(line) else {
        return Err(EntryFault::Unknown);
    };
    let Some((_, behind)) = first_lines(rest, count) else {
        return Err(EntryFault::Cut);
    };
    Ok(text.split_at(text.len() - behind.len()))
}

// How many lines a reply shows that begins with this line, where it is one of what is done.
fn count_of(line: &[u8]) -> Option<u32> {
    let line = str::from_utf8(line).ok()?;
    let (count, _) = line.strip_prefix("ok ")?.split_once(' ')?;
    count.parse::<u32>().ok()
}

// The lines at the front of a text that begin with an upper-case letter, as those of traces do, and what stands behind them.
fn split_traces(text: &[u8]) -> (&[u8], &[u8])
    ensures { text.now ≡ result.0.now ++ result.1.now }
{
    let mut rest = text;
    while rest.first().is_some_and(|byte| byte.is_ascii_uppercase()) {
        let Some((_, behind)) = first_line(rest) else {
            break;
        };
        rest = behind;
    }
    text.split_at(text.len() - rest.len())
}

// The text with which a state leaves a session, and comes back.

ghost use Rattle.std.specs.Prelude.{◌≡◌, ◌↔◌, false, string_bytes, IfOk, IsTrue};
ghost use Rattle.hex.specs.Hex.{encode_lower};
ghost use Rattle.requests.specs.Asked.{Asked as asked};
ghost use Rattle.session.specs.Answers.{IsAnswer};
ghost use Rattle.session.specs.Saved.{IsLoadAnswer, IsReadAs, IsSet, fault_of_state, saved_text};
ghost use Rattle.session.specs.declared.saving.LoadFault.TheVariants as fault;

use crate::file_line::head_of;
use crate::reply::{Refusal, Reply, Shown};
use crate::session::Session;
use body::{Body, State};
use engine::SetFault;
use requests::Load;
use state_text::digest::hex_of;
use state_text::reading::{StateFault, read_state};
use state_text::text::text_of_state;
use std::alloc::{AllocError, Global};
use std::str;

impl<B: Body> Session<B> {
    /// Shows the whole state, behind the digest of its program file.
    pub(crate) fn save(&self, alloc: Global) -> Reply
        requires { self.now.engine.spoiled ≡ false }
        ensures { IsAnswer B.meaning false 1 self.now asked.Save result self.now }
    {
        match saved_text(alloc, self.file, self.engine.state()) {
            Ok(lines) => self.done(Shown::Lines(lines)),
            Err(_) => Reply::Failed,
        }
    }

    /// Sets the state whose text was saved, also where the present one is lost. `OtherFile` unless it is one of the
    /// same program file, or any will do. `Outside` and `NoState` where the bytes are the text of no state; they name
    /// the first line that is not of one. `OtherMemories` where the state lacks those of the schedule.
    pub fn load(&mut self, alloc: Global, load: Load, text: &[u8]) -> Reply
        ensures { IsLoadAnswer self.old load text.now result self.new }
    {
        match loaded_state(alloc, self.file, load.anyway, text) {
            Ok(state) => self.take(alloc, state),
            Err(LoadFault::Refused(why)) => Reply::Refused(why),
            Err(LoadFault::Memory) => Reply::Failed,
        }
    }

    // Sets a state.
    fn take(&mut self, alloc: Global, state: State) -> Reply
        ensures { IsSet self.old state result self.new }
    {
        match self.engine.set_state(alloc, state) {
            Ok(()) => self.done(Shown::Nothing),
            Err(SetFault::Memory) => Reply::Failed,
            Err(SetFault::Count) => Reply::Refused(Refusal::OtherMemories),
            Err(SetFault::Bodies) => unreachable!(),
        }
    }
}

// The text of a state of the file with this digest.
fn saved_text(alloc: Global, file: [u8; 32], state: &State) -> Result<String, AllocError>
    ensures { IfOk result (λ text. string_bytes text ≡ saved_text file state.now) }
{
    let digest = hex_of(file);
    let lines = text_of_state(alloc, state)?;
    format!(in alloc; "file {digest}\n{lines}")
}

// Why a text is not loaded.
#[derive(Clone, Copy)]
enum LoadFault {
    Refused(Refusal),
    Memory,
}

impl From<AllocError> for LoadFault {
    ghost from_gives = { λ _ told. told ≡ fault.Memory };

    fn from(_error: AllocError) -> Self {
        LoadFault::Memory
    }
}

// Lines are counted with that of the file.
impl From<StateFault> for LoadFault {
    ghost from_gives = { λ error told. told ≡ fault_of_state error };

    fn from(fault: StateFault) -> Self {
        let refusal = match fault {
            StateFault::Outside(line) => Refusal::Outside(line.saturating_add(1)),
            StateFault::NoState(line) => Refusal::NoState(line.saturating_add(1)),
            StateFault::Memory => return LoadFault::Memory,
        };
        LoadFault::Refused(refusal)
    }
}

// The state of which these bytes are the text, of the file with this digest or of any.
fn loaded_state(
    alloc: Global,
    file: [u8; 32],
    anyway: bool,
    bytes: &[u8],
) -> Result<State, LoadFault>
    ensures { IsReadAs file anyway bytes.now result }
{
    let Ok(text) = str::from_utf8(bytes) else {
        return Err(LoadFault::Refused(Refusal::Outside(first_foreign(bytes))));
    };
    let Some((digits, rest)) = head_of(text) else {
        return Err(LoadFault::Refused(Refusal::Outside(1)));
    };
    if !will_do(alloc, digits, file, anyway)? {
        return Err(LoadFault::Refused(Refusal::OtherFile));
    }
    match read_state(alloc, rest) {
        Ok(state) => Ok(state),
        Err(fault) => Err(LoadFault::from(fault)),
    }
}

// Whether a state of the file with these digits will do: any, or that of the file with this digest.
fn will_do(alloc: Global, digits: &str, file: [u8; 32], anyway: bool) -> Result<bool, AllocError>
    ensures { IfOk result (λ yes. IsTrue yes ↔ (anyway ≡ false
        → digits.now ≡ encode_lower file)) }
{
    if anyway {
        return Ok(true);
    }
    let digest = hex_of(file).to_string(alloc)?;
    Ok(digits == digest.as_str())
}

// The line of the first byte that no text of a state has.
fn first_foreign(bytes: &[u8]) -> usize {
    let known = bytes.iter().take_while(|byte| byte.is_ascii());
    known
        .filter(|byte| **byte == b'\n')
        .count()
        .saturating_add(1)
}

// A session: an engine, the states that are kept by name, the file that it is of, and the lines with which a host is greeted.

ghost use Rattle.std.specs.Prelude.{◌≡◌, [], false, string_bytes};

use crate::marks::Marks;
use body::Body;
use engine::Engine;
use std::alloc::Global;
use std::marker::Model;

/// An engine that stays between requests, and the states that a host keeps by name. Contracts see the engine, these states, the SHA-256 digest of
/// the program file, and the lines with which a host is greeted. The bodies are home and fit, and each state that is kept has the memories of the
/// schedule.
pub struct Session<B: Body> {
    pub(crate) engine: Engine<B>,
    pub(crate) marks: Marks,
    pub(crate) file: [u8; 32],
    pub(crate) greeting: String,
}

// One function drops it wherever it is let go.
impl<B: Body> Drop for Session<B> {
    fn drop(self) {
        let Session {
            engine: _,
            marks: _,
            file: _,
            greeting: _,
        } = self;
    }
}

impl<B: Body> Model for Session<B> {
    ghost use Rattle.std.specs.Prelude.{string_bytes};
    ghost use Rattle.session.specs.Live.{IsLive, Live, live_code};

    ghost Value = { Live B };

    ghost coded = { live_code B.code };

    ghost view = { λ s. record {
      engine = s.engine;
      marks = s.marks;
      file = s.file;
      greeting = string_bytes s.greeting;
    } };

    ghost invariant = { λ s. IsLive B.fits s.engine s.marks };
}

impl<B: Body> Session<B> {
    /// The session of an engine that isn't spoiled, of the program file with this SHA-256 digest, which greets a host with these lines. No state is
    /// kept yet.
    pub fn new(alloc: Global, engine: Engine<B>, file: [u8; 32], greeting: String) -> Self
        requires { engine.spoiled ≡ false }
        ensures { result ≡ record {
          engine = engine;
          marks = [];
          file = file;
          greeting = string_bytes greeting;
        } }
    {
        // Proves that its bodies fit.
        let _spoiled = engine.is_spoiled();
        Session {
            engine,
            marks: Marks::new(alloc),
            file,
            greeting,
        }
    }

    /// The engine.
    pub fn engine(&self) -> &Engine<B>
        ensures { result.now ≡ self.now.engine }
    {
        &self.engine
    }
}

// The digest of the values of a state.

ghost use Rattle.std.specs.Prelude.{◌≡◌, ◌∷◌, [], IfOk};
ghost use Rattle.std.specs.Fmt.{WritesOnOk};
ghost use Rattle.hex.specs.Hex.{encode_lower};
ghost use Rattle.sha2.specs.Sha256.{sha256};
ghost use Rattle.state_text.specs.StateText.{values_text};

use crate::text::values_of_state;
use body::State;
use sha2::{Digest, Sha256};
use std::alloc::{AllocError, Global};
use std::fmt;

/// The SHA-256 digest of the text of the values of a state. States that agree have one digest.
pub fn digest_of(alloc: Global, state: &State) -> Result<[u8; 32], AllocError>
    ensures { IfOk result (λ digest. digest ≡ sha256 (values_text state.now)) }
{
    let text = values_of_state(alloc, state)?;
    Ok(Sha256::digest(text.as_bytes()))
}

/// A digest, printed as 64 lower-case hex digits.
#[derive(Clone, Copy)]
pub struct Hex {
    /// Its bytes.
    pub digest: [u8; 32],
}

/// A digest to be printed.
pub fn hex_of(digest: [u8; 32]) -> Hex
    ensures { result.digest ≡ digest }
{
    Hex { digest }
}

impl fmt::Display for Hex {
    ghost use Rattle.std.specs.Prelude.{Some};
    ghost use Rattle.hex.specs.Hex.{encode_lower};

    ghost output = { λ hex. Some (encode_lower hex.digest) };

    fn fmt<W: fmt::Write>(&self, f: &mut fmt::Formatter<W>) -> fmt::Result {
        let digest = self.digest.as_slice();
        for byte in digest {
            write_byte(f, *byte)?;
        }
        Ok(())
    }
}

// Writes the two digits of a byte.
#[tactic(auto, using(crate::proofs::HexDigits::two_digits))]
fn write_byte<W: fmt::Write>(f: &mut fmt::Formatter<W>, byte: u8) -> fmt::Result
    ensures { WritesOnOk W.write_str_gives f.old result (encode_lower (byte ∷ [])) f.new }
{
    write!(f, "{byte:02x}")
}

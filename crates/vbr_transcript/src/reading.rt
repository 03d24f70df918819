//! Reading the text of a script.
ghost use Rattle.std.specs.Prelude.{◌≡◌, ◌⊎◌, IfOk, IfErr};
ghost use Rattle.vbr_transcript.specs.Reading.{IsInput};

use crate::error::RunError;
use std::alloc::Global;
use std::io::Read;

/// The greatest length of a script, in bytes.
pub const MAX_SCRIPT_LEN: usize = 67_108_864;

/// Reads to the end. An error of the reader, or a byte too many, is a read fault.
pub fn read_text<R: Read>(alloc: Global, reader: &mut R) -> Result<Vec<u8>, RunError>
    ensures input { IfOk result (λ text. IsInput (R.remaining reader.old) text.items) }
    ensures fault { IfErr result (λ e. (e ≡ RunError.Read) ⊎ (e ≡ RunError.Memory)) }
{
    let mut text = Vec::new(alloc);
    let mut piece = [0u8; 16384];
    loop {
        let Ok(n) = reader.read(&mut piece) else {
            return Err(RunError::Read);
        };
        if n == 0 {
            return Ok(text);
        }
        if n > MAX_SCRIPT_LEN - text.len() {
            return Err(RunError::Read);
        }
        text.extend_from_slice(&piece[..n])?;
    }
}

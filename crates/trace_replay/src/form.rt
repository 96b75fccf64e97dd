//! The forms in which the lines of a trace are spelled.
ghost use Rattle.std.specs.Prelude.{◌≡◌, ◌<◌, ℕ, Bool, List, false, length, Ok, Err, IfOk, IsErrOf};
ghost use Rattle.trace_model.specs.declared.line.LineError.{LineError};
ghost use Rattle.trace_model.specs.declared.line.LineError.TheVariants as cause;
ghost use Rattle.trace_model.specs.Lines.{IsRunnable};
ghost use Rattle.trace_replay.specs.Forms.{Form};

use std::alloc::Global;
use thiserror::Error;
use trace_model::{Line, LineError};
use trace_text::read_line;

/// Why a line can't be read.
#[derive(Clone, Copy, Debug, PartialEq, Eq, Error)]
pub enum FormError {
    /// The line is refused.
    #[error("the line is refused: {0}")]
    Refused(LineError),
    /// Out of memory.
    #[error("out of memory")]
    Memory,
}

/// A form in which the lines of a trace are spelled.
pub trait LineForm {
    /// What a line says, by its number and its bytes, for a volume with this number of blocks.
    ghost says: { Form };

    /// Whether reading a line allocates nothing.
    ghost spare: { Bool };

    /// Reads the line with this number: what it says, or the first refusal that applies.
    fn read(alloc: Global, line: &[u8], number: u64, size: u64) -> Result<Line, FormError>
        ensures line { IfOk result (λ l. says size number line.now ≡ Ok l) }
        ensures runnable { IfOk result (IsRunnable size) }
        ensures refused { (cause : LineError) → IsErrOf result (FormError.Refused cause) → says size number line.now ≡ Err cause }
        ensures memory { IsErrOf result FormError.Memory → spare ≡ false };

    /// A line of more than 200 bytes is refused for its length.
    ghost long: { (size number : ℕ) → (line : List ℕ) → 200 < length line → says size number line ≡ Err cause.LineTooLong };
}

/// The form of `read_line`.
pub struct TextForm;

impl LineForm for TextForm {
    ghost use Rattle.std.specs.Prelude.{true};
    ghost use Rattle.trace_replay.specs.Forms.{long_text, text_form};

    ghost says = { text_form };

    ghost spare = { true };

    fn read(_alloc: Global, line: &[u8], _number: u64, size: u64) -> Result<Line, FormError> {
        match read_line(line, size) {
            Ok(line) => Ok(line),
            Err(cause) => Err(FormError::Refused(cause)),
        }
    }

    ghost long = { long_text };
}

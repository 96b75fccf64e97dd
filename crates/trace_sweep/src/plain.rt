//! The plain program: the text that a run of a sweep prints.
ghost use Rattle.std.specs.Prelude.{◌≡◌, ◌++◌, All, IfOk};
ghost use Rattle.trace_model.specs.Text as answer_text;
ghost use Rattle.trace_sweep.specs.Runs as runs;

use crate::printing::at_line;
use std::alloc::{AllocError, Global};
use trace_model::Answer;
use trace_text::put_answer;

/// The text that is printed of a run with power cut in this device write, when a plain disk gives these answers.
pub fn plain_text_at(alloc: Global, number: u64, answers: &[Answer]) -> Result<Vec<u8>, AllocError>
    requires { All answer_text.IsTold answers.now }
    ensures { IfOk result (λ bytes. bytes.items ≡ runs.at_text number ++ answer_text.text answers.now) }
{
    let line = at_line(alloc, number)?;
    let mut bytes = Vec::from_slice(alloc, line.as_bytes())?;
    for answer in answers {
        put_answer(&mut bytes, answer)?;
    }
    Ok(bytes)
}

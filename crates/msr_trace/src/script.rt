//! A script over a trace in this form.

use crate::read::{MsrError, read_msr};
use std::alloc::Global;
use trace_model::Line;
use trace_replay::{FormError, FormScript, LineForm};

/// The form of `read_msr`.
pub struct MsrForm;

impl LineForm for MsrForm {
    ghost use Rattle.std.specs.Prelude.{false};
    ghost use Rattle.msr_trace.specs.Msr.{msr_line};
    ghost use Rattle.msr_trace.specs.Trace.{long_refused};

    ghost says = { msr_line };

    ghost spare = { false };

    fn read(alloc: Global, line: &[u8], number: u64, size: u64) -> Result<Line, FormError> {
        match read_msr(alloc, line, number, size) {
            Ok(line) => Ok(line),
            Err(MsrError::Refused(cause)) => Err(FormError::Refused(cause)),
            Err(MsrError::OutOfMemory) => Err(FormError::Memory),
        }
    }

    ghost long = { long_refused };
}

/// Gives the lines of a source in this form, and prints what becomes of them. It holds at most one piece of the
/// source, one line and its fields, and one piece of the text that it prints.
pub type MsrScript<'a, I, O> = FormScript<'a, I, O, MsrForm>;

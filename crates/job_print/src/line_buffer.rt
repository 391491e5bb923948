//! Text on its way to a sink.
ghost use Rattle.std.specs.Prelude.{◌≡◌, ◌≢◌, ◌++◌, [], length, take, IfErr, IfOk, OnOk};
ghost use Rattle.std.specs.Prelude.{MatchResult, None, Some};
ghost use Rattle.ipc_text_temporal.specs.declared.fault.TextFault.TheVariants.{OutOfMemory};
ghost use Rattle.job_print.specs.Forms.{HasLine, LacksRecord, PutsLine, form_fault, line_of};
ghost use Rattle.job_print.specs.LentRows.{HaveRow, row_at};
ghost use Rattle.job_print.specs.Output.{PrintsAs, output};

use crate::column_tree::ColumnReader;
use crate::csv_row::csv_line;
use crate::form::Form;
use crate::json_row::json_line;
use crate::text_buffer::TextBuffer;
use ipc_device::{Failed, Sink, send_all};
use ipc_model::Field;
use ipc_text_temporal::TextFault;
use std::alloc::{AllocError, Global};
use std::marker::Model;

// At how many bytes the text goes to the sink.
const FULL_LEN: usize = 1 << 16;

// How many bytes of text have room at first: a full text, and a line.
const INITIAL_LEN: usize = FULL_LEN + (1 << 12);

/// Why a text was not printed.
#[derive(Clone, Copy, Debug, PartialEq, Eq)]
pub enum PrintFault {
    /// The sink failed.
    Write,
    /// Memory for the text ran out.
    OutOfMemory,
}

impl From<AllocError> for PrintFault {
    ghost use Rattle.std.specs.Prelude.{◌≡◌};
    ghost use Rattle.job_print.specs.declared.line_buffer.PrintFault.TheVariants.{OutOfMemory};

    ghost from_gives = { λ _ fault. fault ≡ OutOfMemory };

    fn from(_error: AllocError) -> PrintFault {
        PrintFault::OutOfMemory
    }
}

// Sends all of a text. Never inlined, so that the loop over the cells keeps its registers.
#[cold]
#[inline(never)]
#[tactic(auto, using(crate::proofs::Puts::sent_cut))]
pub(crate) fn send<W: Sink>(sink: &mut W, text: &[u8]) -> Result<(), PrintFault>
    ensures puts { PrintsAs (output (W.written sink.old) (W.failures sink.old) text.now)
        (W.written sink.new) (W.failures sink.new) [] [] result }
    ensures only { IfErr result (λ fault. fault ≡ PrintFault.Write) }
{
    match send_all(sink, text) {
        Ok(()) => Ok(()),
        Err(Failed) => Err(PrintFault::Write),
    }
}

// Adds the line of a row in this form. X3 in CSV, if the row has no line; then a beginning of the
// line may have been added. `OutOfMemory` if memory ran out.
#[inline(always)]
fn add_line(
    out: &mut TextBuffer,
    form: Form<'_>,
    fields: &[Field],
    columns: &[ColumnReader<'_>],
    row: usize,
) -> Result<(), TextFault>
    requires columns { length columns.now ≡ length fields.now }
    requires row { HaveRow columns.now row }
    requires fits { form_fault form fields.now ≡ None }
    ensures text { OnOk result (out.new.text
        ≡ out.old.text ++ line_of form.entry fields.now (row_at columns.now row)) }
    ensures ok { OnOk result (HasLine form.entry fields.now (row_at columns.now row)) }
    ensures refused { IfErr result (λ fault. fault ≢ OutOfMemory
        → LacksRecord form.entry fields.now (row_at columns.now row) fault) }
    ensures front { IfErr result (λ fault. fault ≢ OutOfMemory
        → take (length out.old.text) out.new.text ≡ out.old.text) }
{
    match form {
        Form::Counts => Ok(()),
        Form::Rows { shape, .. } => Ok(json_line(out, shape, fields, columns, row)?),
        Form::Records(dialect) => csv_line(out, &dialect, fields, columns, row),
    }
}

/// A text buffer before a sink. Contracts describe it by the text that it keeps.
#[derive(Drop)]
pub struct LineBuffer {
    text: TextBuffer,
}

impl Model for LineBuffer {
    ghost use Rattle.std.specs.Prelude.{ℕ, List};
    ghost use Rattle.std.specs.Coded.{codes};

    ghost Value = { List ℕ };

    ghost coded = { Prim.hlevel codes };

    ghost view = { λ l. l.text.text };
}

impl LineBuffer {
    /// Creates an empty buffer. Returns an error if memory ran out.
    pub fn new(alloc: Global) -> Result<LineBuffer, AllocError>
        ensures { IfOk result (λ lines. lines ≡ []) }
    {
        Ok(LineBuffer {
            text: TextBuffer::new(alloc, INITIAL_LEN)?,
        })
    }

    /// Sends the kept text, if it has 64 KiB. The only error is `Write`, if the sink failed; then
    /// the kept text is lost.
    #[inline(always)]
    #[tactic(auto, using(crate::proofs::Puts::puts_none))]
    pub(crate) fn send_full<W: Sink>(&mut self, sink: &mut W) -> Result<(), PrintFault>
        ensures { PrintsAs (output (W.written sink.old) (W.failures sink.old) self.old)
            (W.written sink.new) (W.failures sink.new) self.new [] result }
    {
        if self.text.len() >= FULL_LEN {
            send(sink, self.text.as_slice())?;
            self.text.truncate(0);
        }
        Ok(())
    }

    /// Adds a text. `Write` is returned if the sink failed, and `OutOfMemory` if memory ran out;
    /// then the kept text is lost.
    pub fn put<W: Sink>(&mut self, sink: &mut W, text: &[u8]) -> Result<(), PrintFault>
        ensures { PrintsAs (output (W.written sink.old) (W.failures sink.old) self.old)
            (W.written sink.new) (W.failures sink.new) self.new text.now result }
    {
        self.text.reserve(text.len())?;
        self.text.put(text);
        self.send_full(sink)
    }

    /// Adds the line of a row in this form. Returns why there is none, and adds nothing, if the row
    /// has no line. Returns an error if memory ran out.
    ///
    /// The caller gives the columns of a batch, a row below its `rows`, and the fields of the
    /// columns, which the form can represent.
    #[inline(always)]
    pub fn put_line(
        &mut self,
        form: Form<'_>,
        fields: &[Field],
        columns: &[ColumnReader<'_>],
        row: usize,
    ) -> Result<Option<TextFault>, AllocError>
        requires columns { length columns.now ≡ length fields.now }
        requires row { HaveRow columns.now row }
        requires fits { form_fault form fields.now ≡ None }
        ensures { IfOk result (PutsLine form.entry fields.now (row_at columns.now row) self.old
            self.new) }
    {
        let start = self.text.len();
        match add_line(&mut self.text, form, fields, columns, row) {
            Ok(()) => Ok(None),
            Err(TextFault::OutOfMemory) => Err(AllocError),
            Err(fault) => {
                self.text.truncate(start);
                Ok(Some(fault))
            }
        }
    }

    /// Sends what is kept, and flushes the sink. Errors: only `Write`, if the sink failed; then the
    /// kept text is lost.
    pub fn flush<W: Sink>(&mut self, sink: &mut W) -> Result<(), PrintFault>
        ensures works { MatchResult result (λ _. W.failures sink.new ≡ 0)
            (λ fault. fault ≡ PrintFault.Write) }
        // Nothing is held back, and nothing is kept.
        ensures handed_on { OnOk result (W.held_back sink.new ≡ Some []) }
        ensures empty { OnOk result (self.new ≡ []) }
        ensures puts { PrintsAs (output (W.written sink.old) (W.failures sink.old) self.old)
            (W.written sink.new) (W.failures sink.new) [] [] result }
    {
        send(sink, self.text.as_slice())?;
        self.text.truncate(0);
        match sink.flush() {
            Ok(()) => Ok(()),
            Err(_) => Err(PrintFault::Write),
        }
    }
}

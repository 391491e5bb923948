//! The rows of a batch as text, in each form.
ghost use Rattle.std.specs.Prelude.{◌≡◌, ◌≤◌, [], length, take, IfOk, IsTrue, None};
ghost use Rattle.job_print.specs.LentRows.{AreColumnsOfRows};
ghost use Rattle.job_print.specs.Forms.{form_fault, batch_heading, pairs_line};
ghost use Rattle.job_print.specs.Streams.{PutsRows};
ghost use Rattle.job_print.specs.Output.{PrintsAs, output};

use crate::column_tree::ColumnReader;
use crate::form::Form;
use crate::line_buffer::{LineBuffer, PrintFault};
use ipc_column::Batch;
use ipc_device::Sink;
use ipc_model::{Field, Text};
use ipc_text_json::pairs_json;
use ipc_text_temporal::TextFault;
use std::alloc::{AllocError, Global};

// The columns of a batch, each found once for all rows.
fn column_readers(alloc: Global, batch: &Batch) -> Result<Vec<ColumnReader<'_>>, AllocError>
    ensures count { IfOk result (λ columns. length columns.items ≡ batch.now.columns) }
    ensures same { IfOk result (λ columns. AreColumnsOfRows batch.now.rows columns.items) }
{
    let mut columns = Vec::with_capacity(alloc, batch.columns())?;
    for number in 0..batch.columns() {
        columns.push(ColumnReader::new(alloc, batch.column(number))?)?;
    }
    Ok(columns)
}

// Whether nothing is printed of a row.
fn prints_no_rows(form: Form<'_>) -> bool
    ensures { IsTrue result → form.entry ≡ Form.Counts }
{
    matches!(form, Form::Counts)
}

// Adds the first `count` rows of a batch, as `print_batch`.
fn print_batch_rows<W: Sink>(
    alloc: Global,
    form: Form<'_>,
    fields: &[Field],
    batch: &Batch,
    count: usize,
    lines: &mut LineBuffer,
    sink: &mut W,
) -> Result<Option<TextFault>, PrintFault>
    requires columns { batch.now.columns ≡ length fields.now }
    requires count { count ≤ length batch.now.rows }
    requires fits { form_fault form fields.now ≡ None }
    ensures { PutsRows form.entry fields.now [] (take count batch.now.rows)
        (output (W.written sink.old) (W.failures sink.old) lines.old) (W.written sink.new)
        (W.failures sink.new) lines.new result }
{
    if prints_no_rows(form) {
        return Ok(None);
    }
    let columns = column_readers(alloc, batch)?;
    for row in 0..count {
        match lines.put_line(form, fields, &columns, row)? {
            None => lines.send_full(sink)?,
            Some(fault) => return Ok(Some(fault)),
        }
    }
    Ok(None)
}

// The line of a batch's pairs: a JSON object with the one member `metadata`.
fn line_of_pairs(alloc: Global, pairs: &[(Text, Text)]) -> Result<Vec<u8>, TextFault>
    ensures { IfOk result (λ line. line.items ≡ pairs_line pairs.now) }
{
    let mut line = Vec::new(alloc);
    line.extend_from_slice(b"{\"metadata\":")?;
    line.extend_from_slice(pairs_json(alloc, pairs)?.as_bytes())?;
    line.extend_from_slice(b"}\n")?;
    Ok(line)
}

// Adds the line before a batch's rows, if the form has one.
fn print_head<W: Sink>(
    alloc: Global,
    form: Form<'_>,
    pairs: &[(Text, Text)],
    lines: &mut LineBuffer,
    sink: &mut W,
) -> Result<(), PrintFault>
    ensures { PrintsAs (output (W.written sink.old) (W.failures sink.old) lines.old)
        (W.written sink.new) (W.failures sink.new) lines.new (batch_heading form.entry pairs.now)
        result }
{
    match form {
        Form::Rows { pairs: true, .. } => match line_of_pairs(alloc, pairs) {
            Ok(line) => lines.put(sink, line.as_slice()),
            Err(_) => Err(PrintFault::OutOfMemory),
        },
        Form::Counts | Form::Rows { pairs: false, .. } | Form::Records(_) => Ok(()),
    }
}

/// Adds a batch in this form: its head, which has its pairs if the form prints them, and its first
/// `count` rows. Returns why a row isn't added, if one isn't: X3 in CSV. Then the rows before it
/// were added.
///
/// The caller gives at most the number of the batch's rows, and the fields of the batch's columns,
/// which the form can represent. `Write` is returned if the sink failed, and `OutOfMemory` if
/// memory ran out. Then a beginning of the batch's text went out, and what was kept is lost.
pub fn print_batch<W: Sink>(
    alloc: Global,
    form: Form<'_>,
    fields: &[Field],
    pairs: &[(Text, Text)],
    batch: &Batch,
    count: usize,
    lines: &mut LineBuffer,
    sink: &mut W,
) -> Result<Option<TextFault>, PrintFault>
    requires columns { batch.now.columns ≡ length fields.now }
    requires count { count ≤ length batch.now.rows }
    requires fits { form_fault form fields.now ≡ None }
    ensures { PutsRows form.entry fields.now (batch_heading form.entry pairs.now) (take count
        batch.now.rows)
        (output (W.written sink.old) (W.failures sink.old) lines.old) (W.written sink.new)
        (W.failures sink.new) lines.new result }
{
    print_head(alloc, form, pairs, lines, sink)?;
    print_batch_rows(alloc, form, fields, batch, count, lines, sink)
}

//! The lines that explain the refusal of a message.
ghost use Rattle.std.specs.Prelude.{◌≡◌, ◌≤◌, [], IfOk, IfSome, MatchOption, None, Some, drop};
ghost use Rattle.std.specs.Prelude.{length};
ghost use Rattle.ipc_model.specs.Entries.{entries};
ghost use Rattle.ipc_column.specs.DictionaryBatches.{AreDictionaries, dictionaries_in};
ghost use Rattle.job_explain.specs.Explained.{ExplainsBatch, ExplainsContent, ExplainsFirst};
ghost use Rattle.job_explain.specs.Explained.{ExplainsLater, ExplainsMessage};
ghost use Rattle.ipc_stream_read.specs.Scopes.{in_scope};
ghost use Rattle.ipc_stream_read.specs.Stream.{values_in_force};
ghost use Rattle.ipc_dict_read.specs.ValuesColumns.{columns_for, dictionary_columns};
ghost use Rattle.job_explain.specs.Explained as spec;

use crate::column_lines::{push_column, push_counts, push_rows};
use crate::columns_alone::first_alone;
use crate::field_paths::field_line;
use crate::formats::format_line;
use crate::message_lines::{body_line, end_line, limit_words, metadata_line, push_limits};
use crate::message_record::MessageRecord;
use ipc_column::{Batch, Cursor, count};
use ipc_frame::Frame;
use ipc_meta::{BatchHead, Head};
use ipc_model::{Fault, Field, Limits};
use ipc_stream_read::Scope;
use ipc_text_temporal::push_signed;
use std::alloc::{AllocError, Global};
use std::collections::BTreeMap;
use std::sync::Arc;

// The metadata of a message with these first bytes: what follows the 8 bytes of the prefix.
#[tactic(auto, using(std::proofs::lemmas::List::drop_min))]
fn metadata_of(front: &[u8]) -> &[u8]
    ensures { result.now ≡ drop 8 front.now }
{
    let prefix = 8.min(front.len());
    &front[prefix..]
}

impl MessageRecord {
    /// Returns the lines for the message with this number, which was refused for this fault.
    pub(crate) fn explain(
        &self,
        alloc: Global,
        fault: &Fault,
        message: u64,
    ) -> Result<Vec<u8>, AllocError>
        ensures lines { IfOk result
            (λ lines. ExplainsMessage self.now fault.now message lines.items) }
    {
        match fault {
            Fault::BadMetadataLength => metadata_line(alloc, &self.front, b""),
            Fault::MetadataTooLong => {
                let more = limit_words(alloc, b"; --max-metadata", self.limits.metadata)?;
                metadata_line(alloc, &self.front, &more)
            }
            Fault::Truncated => {
                end_line(alloc, self.count, self.frames.held(), self.frames.wants())
            }
            Fault::BadBodyLength => body_line(alloc, metadata_of(&self.front), b""),
            Fault::BodyTooLong => {
                let more = limit_words(alloc, b"; --max-body", self.limits.body)?;
                body_line(alloc, metadata_of(&self.front), &more)
            }
            _ => {
                let mut lines = self.explain_content(alloc, fault, message)?;
                push_limits(&mut lines, &self.limits, fault)?;
                Ok(lines)
            }
        }
    }

    // The line for what the message with this number holds.
    fn explain_content(
        &self,
        alloc: Global,
        fault: &Fault,
        message: u64,
    ) -> Result<Vec<u8>, AllocError>
        ensures line { IfOk result
            (λ line. ExplainsContent self.now fault.now message line.items) }
    {
        match message {
            0 => self.explain_first(alloc, fault),
            _ => self.explain_later(alloc, fault),
        }
    }

    // The line for the first message.
    fn explain_first(&self, alloc: Global, fault: &Fault) -> Result<Vec<u8>, AllocError>
        ensures line { IfOk result (λ line. ExplainsFirst self.now.limits self.now.front.items
            fault.now line.items) }
    {
        match fault.number() {
            1 => format_line(alloc, &self.front),
            13..=22 => field_line(alloc, &self.limits, fault, metadata_of(&self.front)),
            _ => Ok(Vec::new(alloc)),
        }
    }

    // The line for a later message than the first.
    fn explain_later(&self, alloc: Global, fault: &Fault) -> Result<Vec<u8>, AllocError>
        ensures line { IfOk result
            (λ line. ExplainsLater self.now.scope self.now.last fault.now line.items) }
    {
        match (&self.scope, &self.last) {
            (Some(scope), Some(Frame::Message { head, body, .. })) => match head {
                Head::Batch(head, _) => explain_rows(alloc, scope, fault, head, body),
                Head::Dictionary(id, head) => {
                    explain_values(alloc, scope, fault, *id, head, body)
                }
                Head::Schema(_) => Ok(Vec::new(alloc)),
            },
            _ => Ok(Vec::new(alloc)),
        }
    }
}

// The line for a record batch.
fn explain_rows(
    alloc: Global,
    scope: &Scope,
    fault: &Fault,
    head: &BatchHead,
    body: &[u8],
) -> Result<Vec<u8>, AllocError>
    ensures line { IfOk result (λ line. ExplainsBatch scope.now.limits fault.now
        (values_in_force (in_scope scope.now).dictionaries) scope.now.schema.fields head.now
        body.now [] line.items) }
{
    explain_batch(
        alloc,
        &scope.limits,
        fault,
        scope.schema.fields.as_slice(),
        head,
        body,
        scope.dictionaries.current(),
        Vec::new(alloc),
    )
}

// The words before the line for the values of a dictionary.
fn dictionary_words(alloc: Global, id: i64) -> Result<Vec<u8>, AllocError>
    ensures words { IfOk result (λ front. front.items ≡ spec.dictionary_words id) }
{
    let mut front = Vec::new(alloc);
    front.extend_from_slice(b"dictionary ")?;
    push_signed(&mut front, id)?;
    front.extend_from_slice(b": ")?;
    Ok(front)
}

// The line for a dictionary that no field names.
fn unknown_line(alloc: Global, id: i64) -> Result<Vec<u8>, AllocError>
    ensures line { IfOk result (λ line. line.items ≡ spec.unknown_line id) }
{
    let mut line = Vec::new(alloc);
    line.extend_from_slice(b"no field has dictionary ")?;
    push_signed(&mut line, id)?;
    line.extend_from_slice(b"\n")?;
    Ok(line)
}

// The one column by which the values of a dictionary are read, if a field of the schema names the
// dictionary.
fn values_column(scope: &Scope, id: i64) -> Option<&[Field]>
    ensures some { IfSome result (λ columns.
        columns_for (dictionary_columns scope.now.schema.fields) id ≡ Some columns.now) }
    ensures none { result ≡ None
        → columns_for (dictionary_columns scope.now.schema.fields) id ≡ None }
    ensures few { IfSome result
        (λ columns. length (entries columns.now) ≤ scope.now.limits.fields) }
{
    Some(scope.dictionaries.fields_of(id)?.as_slice())
}

// The line for the values of a dictionary.
fn explain_values(
    alloc: Global,
    scope: &Scope,
    fault: &Fault,
    id: i64,
    head: &BatchHead,
    body: &[u8],
) -> Result<Vec<u8>, AllocError>
    ensures line { IfOk result
        (λ line. MatchOption (columns_for (dictionary_columns scope.now.schema.fields) id)
        (line.items ≡ spec.unknown_line id)
        (λ fields. ExplainsBatch scope.now.limits fault.now [] fields head.now body.now
        (spec.dictionary_words id) line.items)) }
{
    let Some(fields) = values_column(scope, id) else {
        return unknown_line(alloc, id);
    };
    let front = dictionary_words(alloc, id)?;
    let none = BTreeMap::new(alloc);
    explain_batch(
        alloc,
        &scope.limits,
        fault,
        fields,
        head,
        body,
        &none,
        front,
    )
}

// The line for a batch of these fields under these dictionaries, after the words of `front`; empty
// if nothing is known.
fn explain_batch(
    alloc: Global,
    limits: &Limits,
    fault: &Fault,
    fields: &[Field],
    head: &BatchHead,
    body: &[u8],
    dictionaries: &BTreeMap<i64, Arc<Batch>>,
    front: Vec<u8>,
) -> Result<Vec<u8>, AllocError>
    requires dictionaries { AreDictionaries dictionaries.now }
    requires few { length (entries fields.now) ≤ limits.now.fields }
    ensures line { IfOk result (λ line. ExplainsBatch limits.now fault.now
        (dictionaries_in dictionaries.now) fields.now head.now body.now front.items line.items) }
{
    let mut line = front;
    match fault.number() {
        26 => {
            let all = count(fields, Cursor { node: 0, buffer: 0 });
            push_counts(&mut line, b"nodes", head.nodes.len(), all.node)?;
            Ok(line)
        }
        27 => {
            let all = count(fields, Cursor { node: 0, buffer: 0 });
            push_counts(&mut line, b"buffers", head.buffers.len(), all.buffer)?;
            Ok(line)
        }
        28 if head.length > limits.slots as i64 => {
            push_rows(&mut line, head.length, limits.slots)?;
            Ok(line)
        }
        28..=34 => {
            let column = first_alone(alloc, limits, fault, fields, head, body, dictionaries)?;
            let Some(column) = column else {
                return Ok(Vec::new(alloc));
            };
            push_column(alloc, &mut line, limits, head.length, body.len(), &column)?;
            Ok(line)
        }
        _ => Ok(Vec::new(alloc)),
    }
}

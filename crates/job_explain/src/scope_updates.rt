//! Follows the schema and the dictionaries of a stream.
ghost use Rattle.std.specs.Prelude.{IfOk};
ghost use Rattle.job_explain.specs.ScopeUpdates.{UpdatesScope, UpdatesScopeByMessage};

use ipc_frame::Frame;
use ipc_meta::Head;
use ipc_model::{Fault, Limits};
use ipc_stream_read::Scope;
use std::alloc::Global;

// What is in force after a message with this head and body.
fn after_message(
    alloc: Global,
    limits: Limits,
    scope: Option<Scope>,
    head: Head,
    body: Vec<u8>,
) -> Result<Option<Scope>, Fault>
    ensures { IfOk result (UpdatesScopeByMessage limits scope head body.items) }
{
    match head {
        Head::Schema(schema) => {
            schema.check(alloc, &limits)?;
            Ok(Some(Scope::new(alloc, limits, schema)?))
        }
        Head::Dictionary(id, head) => {
            let Some(mut scope) = scope else {
                return Ok(None);
            };
            scope.set(alloc, id, head, body)?;
            Ok(Some(scope))
        }
        Head::Batch(_, _) => Ok(scope),
    }
}

/// Returns what is in force after a message that the reader accepted.
///
/// Errors: the message is refused after all, or memory ran out.
pub(crate) fn scope_after(
    alloc: Global,
    limits: Limits,
    scope: Option<Scope>,
    frame: Option<Frame>,
) -> Result<Option<Scope>, Fault>
    ensures { IfOk result (UpdatesScope limits scope frame) }
{
    let Some(frame) = frame else {
        return Ok(scope);
    };
    match frame {
        Frame::Message {
            meta: _,
            head,
            body,
        } => after_message(alloc, limits, scope, head, body),
        Frame::End => Ok(scope),
    }
}

//! A proof that batches and sessions may move to another thread.

use crate::batch::ReadBatch;
use crate::session::ReadSession;
use crate::write_session::WriteSession;

fn may_move<T: Send>(_value: &T) {}

/// A batch, a session that reads and one that writes may each be used by another thread than the
/// one that made them: this function is proved only if their types are `Send`. No clause says so.
pub fn may_change_threads(batch: &ReadBatch, reader: &ReadSession, writer: &WriteSession) {
    may_move(batch);
    may_move(reader);
    may_move(writer);
}

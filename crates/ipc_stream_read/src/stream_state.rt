ghost use Rattle.std.specs.Prelude.{◌^◌, ◌-◌, ◌≤◌};

use crate::end::End;
use crate::scope::Scope;

// How far a stream is: what is in force, how it ended, if it did, and how many messages came.
#[derive(Drop)]
pub struct StreamState {
    pub scope: Option<Scope>,
    pub end: Option<End>,
    pub messages: u64,
    ghost counted: { messages ≤ 2 ^ 64 - 1 },
}

ghost use Rattle.std.specs.Coded.{codes};
ghost use Rattle.std.specs.Prelude.{◌≡◌, ◌≤◌, true, length};
ghost use Rattle.ipc_model.specs.Entries.{entries};
ghost use Rattle.ipc_model.specs.contracts.schema.Field.{the_row};
ghost use Rattle.ipc_stream_read.specs.Alone.{HasColumnsOf, are_alone};

use ipc_dict_read::Dictionaries;
use ipc_model::{Limits, Schema};

/// What is in force after the schema's message: the schema, with no more fields than the limits
/// allow, and the dictionaries that were set. The values of each are one column without children or
/// dictionary.
#[derive(Drop)]
pub struct Scope {
    /// The limits of the stream.
    pub limits: Limits,
    /// The schema.
    pub schema: Schema,
    /// The dictionaries that were set.
    pub dictionaries: Dictionaries,
    ghost few_fields: { length (entries schema.fields) ≤ limits.fields },
    ghost columns: { HasColumnsOf schema dictionaries } by { Prim.hlevel (codes, the_row.coded) },
    ghost alone: { are_alone dictionaries.columns ≡ true },
}

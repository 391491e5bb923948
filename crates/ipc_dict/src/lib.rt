//! The dictionaries that a writer sends: the values that it has sent of each, the distinct values
//! of a batch, and which dictionaries to send before the batch. A dictionary is replaced as a
//! whole, and the fields with its id share it (Arrow Columnar Format, "Dictionary Messages").
#![tactic(auto)]

mod column_notes;
mod columns;
mod distinct;
mod entry;
mod kept;
mod messages;
mod plan;
mod recent_values;
mod schema_ids;
mod seed;
mod settle;
mod tally;
mod walk;

pub use distinct::DistinctValues;
pub use entry::TallyEntry;
pub use ipc_dict_read::{Dictionaries, one_column};
pub use kept::{Kept, KeptEntry};
pub use messages::has_short_messages;
pub use plan::Plan;
pub use schema_ids::entries_of_schema;
pub use seed::Seed;
pub use tally::{Tally, holds_distinct, keeps_places, places_all};

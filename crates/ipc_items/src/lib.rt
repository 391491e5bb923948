//! A vector and a text that contracts describe as plain lists, so that equality depends only on
//! their contents.
#![tactic(auto)]

mod items;
mod text;

pub use items::Items;
pub use text::Text;

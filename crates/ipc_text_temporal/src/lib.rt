//! Texts of dates, times and timestamps, digits of bytes and numbers, faults of JSON and CSV.
#![tactic(auto)]

mod calendar;
mod digits;
mod fault;
mod numbers;
mod pairs;
mod places;
mod short_text;
mod temporal;
mod temporal_reader;
mod texts;

pub use digits::push_digits;
pub use fault::TextFault;
pub use numbers::{push_number, push_signed};
pub use short_text::ShortText;
pub use temporal_reader::{read_date, read_time, read_timestamp};
pub use texts::{date_text, put_temporal, temporal_text, time_text, timestamp_text};

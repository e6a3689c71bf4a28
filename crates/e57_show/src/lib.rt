//! What the program shows of an opened file.
#![tactic(auto)]

mod ask;
mod bytes;
mod lines;
mod listing;
mod rows;
mod select;
mod shown;
mod trail;

pub use ask::RowsAsk;
pub use bytes::blob;
pub use listing::list;
pub use rows::extract;
pub use shown::info;

//! What `check` and `extract` say of one file, joined: of an accepted file `extract` puts the asked slice of its records. A law;
//! no call computes anything here.
#![tactic(auto)]

mod theorems;

pub use theorems::accepted_rows;

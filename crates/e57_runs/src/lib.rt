//! Tests of whole runs of the program, from the words and files in memory to the bytes that were put, the pages that were
//! asked for and the status.
#![tactic(auto)]

#[cfg(test)]
mod blobs;
#[cfg(test)]
mod commands;
#[cfg(test)]
mod faults;
#[cfg(test)]
mod listings;
#[cfg(test)]
mod rows;

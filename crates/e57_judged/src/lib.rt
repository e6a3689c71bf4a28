//! Tests of the verdict: on files that are damaged or lie, against a slow plain program, and with failing calls.
#![tactic(auto)]

#[cfg(test)]
mod broken;
#[cfg(test)]
mod plain;
#[cfg(test)]
mod plain_chunks;
#[cfg(test)]
mod plain_index;
#[cfg(test)]
mod plain_items;
#[cfg(test)]
mod sweeps;
#[cfg(test)]
mod verdicts;

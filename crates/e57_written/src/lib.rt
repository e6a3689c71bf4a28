//! Tests of what the commands that write leave in a target: a slow plain program that writes a file as the written form is
//! defined, worked files, calls that fail, files made of two numbers.
#![tactic(auto)]

#[cfg(test)]
mod failing;
#[cfg(test)]
mod filtered;
#[cfg(test)]
mod plain;
#[cfg(test)]
mod plain_packets;
#[cfg(test)]
mod plain_streams;
#[cfg(test)]
mod repacked;
#[cfg(test)]
mod tables;
#[cfg(test)]
mod trials;

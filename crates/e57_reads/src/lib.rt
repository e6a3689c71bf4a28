//! Tests of sections and columns by whole tables, over files made in memory.
#![tactic(auto)]

#[cfg(test)]
mod cases;
#[cfg(test)]
mod cuts;
#[cfg(test)]
mod fields;
#[cfg(test)]
mod lengths;
#[cfg(test)]
mod made;
#[cfg(test)]
mod reader;
#[cfg(test)]
mod sections;
#[cfg(test)]
mod texts;
#[cfg(test)]
mod widths;

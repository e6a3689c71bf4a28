//! Reads two fields of the first cloud of a file into lent buffers, and prints how many records it has and the sum of
//! each field: `e57_example FILE FIELD FIELD`, where FIELD is the path of a field of integers.
#![tactic(auto)]

mod cloud;
mod sums;

use crate::cloud::sums_of;
use crate::sums::Sums;
use e57_lib::faults::RunFault;
use e57_lib::files::open_file;
use e57_lib::objects::{DiskSource, Source};
use std::alloc::Global;
use std::{env, io};

// Opens the file, and sums up the two fields.
fn sums_in<S: Source + Drop>(
    alloc: Global,
    source: S,
    name: &str,
    first: &str,
    second: &str,
) -> Result<Sums, RunFault> {
    let mut pages = match open_file(name, source) {
        Ok(pages) => pages,
        Err((_, fault)) => return Err(RunFault::from(fault)),
    };
    sums_of(alloc, &mut pages, first, second)
}

fn main(rt: HostRuntime) -> io::Result<()> {
    let mut words = Vec::new(rt.alloc());
    for word in env::args(&rt)?.skip(1) {
        words.push(word)?;
    }
    let [file, first, second] = words.as_slice() else {
        return println!(rt; "e57_example FILE FIELD FIELD");
    };
    let source = DiskSource::new(rt.alloc(), &rt);
    match sums_in(rt.alloc(), source, file, first, second) {
        Ok(sums) => {
            println!(rt; "records {}", sums.records)?;
            println!(rt; "{first} {}", sums.first)?;
            println!(rt; "{second} {}", sums.second)
        }
        Err(fault) => println!(rt; "{fault}"),
    }
}

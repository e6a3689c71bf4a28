//! The status of the process and the line on the standard error, for what the words are and the file is.

use crate::answer;
use e57_disk::StdSink;
use std::process::ExitCode;
use std::test::*;
use std::{fs, io};

// The words `pages NAME`.
fn pages_of(rt: &HostRuntime, name: &str) -> io::Result<Vec<String>> {
    let mut words = Vec::new(rt.alloc());
    words.push(String::from_str(rt.alloc(), "pages")?)?;
    words.push(String::from_str(rt.alloc(), name)?)?;
    Ok(words)
}

#[test]
fn the_status_is_that_of_the_run(rt: HostRuntime) -> Result<(), Fail> {
    fs::write(&rt, "zeros", [0; 1024].as_slice())?;
    let no_memory = io::Error::from(io::ErrorKind::OutOfMemory);
    let no_text = io::Error::from(io::ErrorKind::InvalidData);
    let mut words = Vec::new(rt.alloc());
    words.push((pages_of(&rt, "zeros"), 1, "refused Signature 0 0\n"))?;
    words.push((Err(no_text), 2, "words 0\n"))?;
    words.push((pages_of(&rt, "absent"), 3, "source fault\n"))?;
    words.push((Err(no_memory), 5, "out of memory\n"))?;
    for (words, status, line) in words {
        let mut no_room = [0; 0];
        let mut room = [0; 32];
        let mut out = StdSink::new(no_room.as_mut_slice());
        let mut err = StdSink::new(room.as_mut_slice());
        let code = answer(&rt, words, &mut out, &mut err);
        drop(err);
        assert_eq!(rt; code, ExitCode::from(status), "{line}");
        let (said, rest) = room.split_at(line.len().min(32));
        assert_eq!(rt; said, line.as_bytes());
        assert!(rt; rest.iter().all(|byte| *byte == 0), "{line}");
    }
    Ok(())
}

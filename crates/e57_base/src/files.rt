//! Files in memory, by their names.

ghost use Rattle.std.specs.Prelude.{◌≡◌, ◌<◌, length, Some, IfOk, IfSome};
ghost use Rattle.std.specs.String.{string_bytes};
ghost use Rattle.std.specs.Option.{option_map};
ghost use Rattle.std.specs.FinMap.{get};
ghost use Rattle.e57_base.specs.Files.{stock_of, bytes_at};

use std::alloc::{AllocError, Global};

/// A file in memory.
#[derive(Drop)]
pub struct NamedFile {
    pub name: String,
    pub bytes: Vec<u8>,
}

impl NamedFile {
    /// A file of this name with these bytes.
    pub fn new(alloc: Global, name: &str, bytes: Vec<u8>) -> Result<NamedFile, AllocError>
        ensures name { IfOk result (λ file. string_bytes file.name ≡ name.now) }
        ensures bytes { IfOk result (λ file. file.bytes ≡ bytes) }
    {
        Ok(NamedFile {
            name: String::from_str(alloc, name)?,
            bytes,
        })
    }
}

/// The place of the file of this name.
pub fn index_of(files: &[NamedFile], name: &str) -> Option<usize>
    ensures within { IfSome result (λ place. place < length files.now) }
    ensures found { bytes_at files.now result ≡ get (stock_of files.now) name.now }
{
    for (place, file) in files.iter().enumerate() {
        if name == file.name.as_str() {
            return Some(place);
        }
    }
    None
}

/// The length in bytes of the file at this place.
pub fn size_at(files: &[NamedFile], place: usize) -> u64
    requires { place < length files.now }
    ensures { option_map length (bytes_at files.now (Some place)) ≡ Some result }
{
    files[place].bytes.len() as u64
}

//! The names of the children of a node.

ghost use Rattle.std.specs.Prelude.{◌≡◌, List, ℕ, None, IfOk, OnOk};
ghost use Rattle.e57_tree.specs.Names.{number_of, Notes};

use std::alloc::{AllocError, Global};
use std::collections::BTreeMap;

/// Names, each with the number of the first node that has it.
#[derive(Drop)]
pub struct Names<'a> {
    pub numbers: BTreeMap<&'a [u8], u32>,
}

impl<'a> Names<'a> {
    /// No name.
    pub fn new(alloc: Global) -> Names<'a>
        ensures { (q : List ℕ) → number_of result q ≡ None }
    {
        Names {
            numbers: BTreeMap::new(alloc),
        }
    }

    /// Adds a name with its number, and answers the number that it had before, which then stays.
    pub fn note(&mut self, name: &'a [u8], number: u32) -> Result<Option<u32>, AllocError>
        ensures found { IfOk result (λ found. found ≡ number_of self.old name.now) }
        ensures noted { OnOk result (Notes self.old self.new name.now number) }
    {
        if let Some(earlier) = self.numbers.get(&name) {
            return Ok(Some(*earlier));
        }
        self.numbers.insert(name, number)?;
        Ok(None)
    }
}

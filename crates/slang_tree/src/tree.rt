// A file whose nesting is within the limit.

ghost use Rattle.std.specs.Prelude.{◌≡◌, ◌↔◌, IsOk, IfOk, IfErr, Some, None};
ghost use Rattle.slang_tree.specs.Nesting.{first_too_deep};

use crate::File;
use crate::nesting::in_items;
use slang_names::Place;
use std::marker::Model;

/// The tree of a text: a file in which no node stands in 64 or more others. A contract sees the file.
#[derive(Drop)]
pub struct Tree {
    file: File,
}

impl Model for Tree {
    ghost use Rattle.std.specs.Prelude.{◌≡◌, None};
    ghost use Rattle.slang_tree.specs.declared.file.File.{File};
    ghost use Rattle.slang_tree.specs.contracts.file.File as file_contract;

    ghost Value = { File };

    ghost coded = { file_contract.the_row.coded };

    ghost use Rattle.slang_tree.specs.Nesting.{first_too_deep};

    ghost view = { λ t. t.file };

    ghost invariant = { λ t. first_too_deep t.file ≡ None };
}

impl Tree {
    /// The tree of the file, or the place of the first node that stands in 64 others. Takes no memory.
    pub fn new(file: File) -> Result<Tree, Place>
        ensures same { IfOk result (λ tree. tree ≡ file) }
        ensures taken { IsOk result ↔ (first_too_deep file ≡ None) }
        ensures refused { IfErr result (λ place. first_too_deep file ≡ Some place) }
    {
        match in_items(file.items.as_slice(), 0) {
            Some(place) => Err(place),
            None => Ok(Tree { file }),
        }
    }

    /// The file.
    pub fn file(&self) -> &File
        ensures same { result.now ≡ self.now }
        ensures nests { first_too_deep self.now ≡ None }
    {
        &self.file
    }
}

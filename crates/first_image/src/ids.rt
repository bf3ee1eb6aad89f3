// The ids of what stands before the statements of an entry.

ghost use Rattle.std.specs.Prelude.{◌≡◌, ◌+◌, ◌*◌, ◌^◌, ◌<◌, ◌≤◌, [], length, IfOk};
ghost use Rattle.std.specs.List.{AllByRecursion};
ghost use Rattle.std.specs.List.Sorted.{IsStrictlyIncreasing};
ghost use Rattle.first_image.specs.Image.{position, statements_constants};
ghost use Rattle.first_form.specs.Shaders.{IsStatement};
ghost use Rattle.first_image.specs.Emitted.{array_at, pointers_at, nulls_at, buffer_at, entry_at, tables_at};

use crate::numbers::constants_of;
use first_form::Statement;
use std::alloc::{AllocError, Global};

/// The constants, ascending and each once; the ids of an image follow from them.
#[derive(Drop)]
pub struct Ids {
    pub numbers: Vec<u32>,
    ghost ascending: { IsStrictlyIncreasing numbers.items },
    ghost few: { length numbers.items ≤ 2 ^ 27 },
}

impl Ids {
    /// The ids of an image whose entry has these statements.
    pub fn of(alloc: Global, statements: &[Statement]) -> Result<Ids, AllocError>
        requires short { AllByRecursion IsStatement statements.now }
        requires few { length statements.now < 2 ^ 20 }
        ensures { IfOk result (λ ids. ids.numbers.items ≡ statements_constants statements.now []) }
    {
        let numbers = constants_of(alloc, statements)?;
        Ok(Ids { numbers })
    }

    /// The id of a constant.
    pub fn constant(&self, number: u32) -> u32
        ensures { result ≡ 13 + position number self.now.numbers.items }
    {
        let place = match self.numbers.binary_search(&number) {
            Ok(place) => place,
            Err(_) => self.numbers.len(),
        };
        13 + place as u32
    }

    /// The id of the buffer's array. That of the array's wrapper follows.
    pub fn array(&self) -> u32
        ensures { result ≡ array_at self.now.numbers.items }
    {
        13 + self.numbers.len() as u32
    }

    /// The first id of the types of pointers.
    pub fn pointers(&self) -> u32
        ensures { result ≡ pointers_at self.now.numbers.items }
    {
        self.array() + 2
    }

    /// The first id of the nulls.
    pub fn nulls(&self) -> u32
        ensures { result ≡ nulls_at self.now.numbers.items }
    {
        self.pointers() + 17
    }

    /// The id of the buffer's variable. That of the invocation's number follows.
    pub fn buffer(&self) -> u32
        ensures { result ≡ buffer_at self.now.numbers.items }
    {
        self.nulls() + 9
    }

    /// The id of the entry. That of its label follows.
    pub fn entry(&self) -> u32
        ensures { result ≡ entry_at self.now.numbers.items }
    {
        self.buffer() + 2
    }

    /// The id of a local's variable. The first local is the entry's parameter.
    pub fn variable(&self, local: u32) -> u32
        requires { local < 2 ^ 27 }
        ensures { result ≡ (tables_at self.now.numbers.items).pointer local }
    {
        self.entry() + 2 + local
    }

    /// The id of the type of pointers to a uint in a variable.
    pub fn word_pointer(&self) -> u32
        ensures { result ≡ (tables_at self.now.numbers.items).word_pointer }
    {
        self.pointers() + 2
    }

    /// The id of the type of pointers to a uint in a buffer.
    pub fn cell_pointer(&self) -> u32
        ensures { result ≡ (tables_at self.now.numbers.items).cell_pointer }
    {
        self.pointers() + 10
    }
}

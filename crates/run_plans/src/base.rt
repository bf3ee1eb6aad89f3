// The places of an image's values, with its buffers.

ghost use Rattle.std.specs.Prelude.{◌≡◌};
ghost use Rattle.run_rooms.specs.Rooms.{size_of};
ghost use Rattle.run_rooms.specs.Widths.{in_word};

use image_declarations::Declarations;
use run_rooms::Places;
use sqlite_items::Items;
use std::collections::HashMap;

/// A buffer that an image names: its set and binding, and how many words it needs.
#[derive(Clone, Copy, PartialEq, Eq, PartialOrd, Ord)]
pub struct Bound {
    pub set: u32,
    pub binding: u32,
    pub words: u32,
}

/// Where the values of an image stand, the buffers that it names, and the places of each struct's members behind its first word.
#[derive(Drop)]
pub struct Ground<'a> {
    pub places: Places<'a>,
    pub buffers: Items<Bound>,
    pub members: HashMap<u32, Vec<u32>>,
}

impl<'a> Ground<'a> {
    ghost use Rattle.run_plans.specs.Ground.{rooms_of};

    /// What the declarations of the image say.
    pub fn declarations(&self) -> &Declarations<'a>
        ensures { result.now ≡ self.now.places.code }
    {
        self.places.declarations()
    }

    /// Where the words of an id stand.
    #[tactic(auto, unfolding(crate::specs::Ground::rooms_of))]
    pub fn slot(&self, id: u32) -> u32
        ensures { result ≡ (rooms_of self.now).slot id }
    {
        self.places.slot(id)
    }

    /// Where the words of a variable stand.
    #[tactic(auto, unfolding(crate::specs::Ground::rooms_of))]
    pub fn room(&self, id: u32) -> u32
        ensures { result ≡ (rooms_of self.now).room id }
    {
        self.places.room(id)
    }

    /// The two words of a function's call.
    #[tactic(auto, unfolding(crate::specs::Ground::rooms_of))]
    pub fn frame(&self, function: usize) -> u32
        ensures { result ≡ (rooms_of self.now).frame function }
    {
        self.places.frame(function)
    }

    /// Where the variables of a function stand.
    #[tactic(auto, unfolding(crate::specs::Ground::rooms_of))]
    pub fn rooms(&self, function: usize) -> u32
        ensures { result ≡ (rooms_of self.now).rooms function }
    {
        self.places.rooms(function)
    }

    /// How many words the variables of a function have.
    #[tactic(auto, unfolding(crate::specs::Ground::rooms_of))]
    pub fn rooms_count(&self, function: usize) -> u32
        ensures { result ≡ (rooms_of self.now).rooms_count function }
    {
        self.places.rooms_count(function)
    }

    /// The words of a built-in value.
    #[tactic(auto, unfolding(crate::specs::Ground::rooms_of))]
    pub fn input(&self, built_in: u32) -> u32
        ensures { result ≡ (rooms_of self.now).input built_in }
    {
        self.places.input(built_in)
    }

    /// How many words there are.
    #[tactic(auto, unfolding(crate::specs::Ground::rooms_of))]
    pub fn total(&self) -> u32
        ensures { result ≡ (rooms_of self.now).total }
    {
        self.places.total()
    }
}

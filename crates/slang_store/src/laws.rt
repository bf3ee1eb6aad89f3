// Laws of the definitions, each the contract of a function that does nothing.

ghost use Rattle.std.specs.Prelude.{◌≡◌, ◌≢◌, ℕ, List, Some};
ghost use Rattle.slang_store.specs.Contents.{Contents, with_entry};

/// An entry gives its name the bytes, and leaves every other name what it had.
pub fn an_entry_changes_one_name()
    ensures here { (m : Contents) (name bytes : List ℕ) → with_entry m name bytes name ≡ Some bytes }
    ensures elsewhere { (m : Contents) (name bytes other : List ℕ) → name ≢ other
        → with_entry m name bytes other ≡ m other }
{}

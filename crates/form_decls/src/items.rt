// Lists of what has a reader and a writer of its own.

ghost use Rattle.std.specs.Prelude.{◌≡◌, ◌++◌, OnOk, map};
ghost use Rattle.form_grammar.specs.Trees.{Tree, spelling, chain, list_of};
ghost use Rattle.form_grammar.specs.Grammar as form;
ghost use Rattle.form_grammar.specs.Numbers.{after};
ghost use Rattle.form_grammar.specs.Reading.{Gives, form_at, nested_at, items_at};
ghost use Rattle.slang_core.specs.TypeTrees.{option_of};

use form_grammar::{Level, ReadFault, count_at, put_count, refused, short};
use slang_names::FormCode;
use sqlite_items::Items;
use std::alloc::AllocError;

/// What has one form in a stored module.
pub trait Stored: Drop {
    /// The form.
    ghost form: { form.Form };

    /// What a value spells.
    ghost tree: { Self → Tree };

    /// The value at the front, and the bytes behind it.
    fn read(level: Level, bytes: &[u8]) -> Result<(Self, &[u8]), ReadFault>
        ensures { Gives (λ x. (tree x.0, x.1.now)) result (form_at (nested_at level.depth) form bytes.now) };

    /// Appends the bytes.
    fn put(&self, out: &mut Vec<u8>) -> Result<(), AllocError>
        ensures { OnOk result (out.new.items ≡ out.old.items ++ spelling (tree self.now)) };
}

fn items_of<T: Stored>(
    level: Level,
    count: u32,
    bytes: &[u8],
) -> Result<(Items<T>, &[u8]), ReadFault>
    ensures { Gives (λ x. (chain (map T.tree x.0), x.1.now)) result (items_at (form_at (nested_at level.depth) T.form) count bytes.now) }
{
    let mut items = Items::new(level.alloc);
    let mut rest = bytes;
    for _ in 0..count {
        let (item, after) = T::read(level, rest)?;
        items.push(item)?;
        rest = after;
    }
    Ok((items, rest))
}

/// The list at the front, and the bytes behind it.
#[tactic(auto, unfolding(form_grammar::specs::Reading::form_at, form_grammar::specs::Numbers::after))]
pub fn list_at<T: Stored>(level: Level, bytes: &[u8]) -> Result<(Items<T>, &[u8]), ReadFault>
    ensures { Gives (λ x. (list_of T.tree x.0, x.1.now)) result (form_at (nested_at level.depth) (form.list T.form) bytes.now) }
{
    let (count, rest) = count_at(bytes)?;
    items_of(level, count, rest)
}

fn put_items<T: Stored>(out: &mut Vec<u8>, items: &[T]) -> Result<(), AllocError>
    ensures { OnOk result (out.new.items ≡ out.old.items ++ spelling (chain (map T.tree items.now))) }
{
    for item in items {
        item.put(out)?;
    }
    Ok(())
}

/// Appends a list.
#[tactic(auto, using(std::proofs::lemmas::List::append_assoc, form_grammar::proofs::Chains::size_chain))]
pub fn put_list<T: Stored>(out: &mut Vec<u8>, items: &[T]) -> Result<(), AllocError>
    ensures { OnOk result (out.new.items ≡ out.old.items ++ spelling (list_of T.tree items.now)) }
{
    put_count(out, items.len())?;
    put_items(out, items)?;
    Ok(())
}

/// What may be there, at the front.
#[tactic(auto, unfolding(form_grammar::specs::Reading::form_at, form_grammar::specs::Numbers::after))]
pub fn option_at<T: Stored>(level: Level, bytes: &[u8]) -> Result<(Option<T>, &[u8]), ReadFault>
    ensures { Gives (λ x. (option_of T.tree x.0, x.1.now)) result (form_at (nested_at level.depth) (form.opt T.form) bytes.now) }
{
    match bytes {
        [] => Err(short()),
        [0, rest @ ..] => Ok((None, rest)),
        [1, rest @ ..] => {
            let (item, rest) = T::read(level, rest)?;
            Ok((Some(item), rest))
        }
        _ => Err(refused(FormCode::NotCanonical, bytes)),
    }
}

/// Appends what may be there.
#[tactic(auto, using(std::proofs::lemmas::List::append_assoc))]
pub fn put_option<T: Stored>(out: &mut Vec<u8>, item: &Option<T>) -> Result<(), AllocError>
    ensures { OnOk result (out.new.items ≡ out.old.items ++ spelling (option_of T.tree item.now)) }
{
    match item {
        None => out.push(0)?,
        Some(item) => {
            out.push(1)?;
            item.put(out)?;
        }
    }
    Ok(())
}

// Evidence from its bytes.

ghost use Rattle.std.specs.Prelude.{◌≡◌, ◌≤◌, ◌<◌, length, IfOk, Ok, Err, List, map};
ghost use Rattle.form_grammar.specs.Trees.{text, tagged, nested, list_of, chain};
ghost use Rattle.form_grammar.specs.Grammar as form;
ghost use Rattle.form_grammar.specs.Grammar.{◌▹◌};
ghost use Rattle.form_grammar.specs.Numbers.{after};
ghost use Rattle.form_grammar.specs.Reading.{Gives, form_at, nested_at, items_at, behind};
ghost use Rattle.slang_core.specs.TypeTrees.{ref_tree, arg_tree};
ghost use Rattle.slang_core.specs.EvidenceTrees.{evidence_tree, evidence_part};

use crate::leaves::{name_of, ref_of};
use crate::types::args_of;
use form_grammar::{Level, ReadFault, count_at, number_at, refused, short};
use slang_core::Evidence;
use slang_names::FormCode;
use sqlite_items::{Boxed, Items};

#[cycle(evidence)]
fn evidence_items(
    level: Level,
    count: u32,
    bytes: &[u8],
) -> Result<(Items<Evidence>, &[u8]), ReadFault>
    ensures { Gives (λ x. (chain (map evidence_part x.0), x.1.now)) result (items_at (form_at (nested_at level.depth) (form.part form.Evidence)) count bytes.now) }
{
    let mut items = Items::new(level.alloc);
    let mut rest = bytes;
    for _ in 0..count {
        let (item, after) = evidence_at(level, rest)?;
        items.push(item)?;
        rest = after;
    }
    Ok((items, rest))
}

/// A list of evidence at the front.
#[cycle(evidence)]
#[tactic(auto, unfolding(form_grammar::specs::Reading::form_at, form_grammar::specs::Numbers::after))]
pub fn evidences_of(level: Level, bytes: &[u8]) -> Result<(Items<Evidence>, &[u8]), ReadFault>
    ensures { Gives (λ x. (list_of evidence_part x.0, x.1.now)) result (form_at (nested_at level.depth) (form.list (form.part form.Evidence)) bytes.now) }
{
    let (count, rest) = count_at(bytes)?;
    evidence_items(level, count, rest)
}

/// Evidence at the front, nested in what stands around it.
#[cycle(evidence)]
#[tactic(auto, unfolding(form_grammar::specs::Reading::form_at, form_grammar::specs::Numbers::after))]
pub fn evidence_at(level: Level, bytes: &[u8]) -> Result<(Evidence, &[u8]), ReadFault>
    ensures { Gives (λ x. (evidence_part x.0, x.1.now)) result (form_at (nested_at level.depth) (form.part form.Evidence) bytes.now) }
{
    evidence_of(level, bytes)
}

#[cycle(evidence)]
#[tactic(auto, unfolding(form_grammar::specs::Reading::form_at, form_grammar::specs::Numbers::after))]
fn bound_of(level: Level, bytes: &[u8]) -> Result<(Evidence, &[u8]), ReadFault>
    ensures { Gives (λ x. (evidence_tree x.0, x.1.now)) result (behind (nested_at level.depth) 1 (form.part form.Evidence ▹ form.ref ▹ form.name) bytes.now) }
{
    let (subject, rest) = evidence_of(level, bytes)?;
    let (interface, rest) = ref_of(level, rest)?;
    let (name, rest) = name_of(level, rest)?;
    Ok((
        Evidence::Bound(Boxed::new(level.alloc, subject)?, interface, name),
        rest,
    ))
}

#[cycle(evidence)]
#[tactic(auto, unfolding(form_grammar::specs::Reading::form_at, form_grammar::specs::Numbers::after))]
fn conformance_of(level: Level, bytes: &[u8]) -> Result<(Evidence, &[u8]), ReadFault>
    ensures { Gives (λ x. (evidence_tree x.0, x.1.now)) result
        (behind (nested_at level.depth) 2 (form.ref ▹ form.ref ▹ form.list form.arg ▹ form.list (form.part form.Evidence)) bytes.now) }
{
    let (subject, rest) = ref_of(level, bytes)?;
    let (interface, rest) = ref_of(level, rest)?;
    let (args, rest) = args_of(level, rest)?;
    let (bounds, rest) = evidences_of(level, rest)?;
    Ok((
        Evidence::Conformance(subject, interface, args, bounds),
        rest,
    ))
}

#[cycle(evidence)]
#[tactic(auto, unfolding(form_grammar::specs::Reading::form_at, form_grammar::specs::Numbers::after))]
fn evidence_body(level: Level, bytes: &[u8]) -> Result<(Evidence, &[u8]), ReadFault>
    ensures { Gives (λ x. (evidence_tree x.0, x.1.now)) result (form_at (nested_at level.depth) form.evidence_form bytes.now) }
{
    let [tag, rest @ ..] = bytes else {
        return Err(short());
    };
    match *tag {
        0 => {
            let (number, rest) = number_at(rest)?;
            Ok((Evidence::Constraint(number), rest))
        }
        1 => bound_of(level, rest),
        2 => conformance_of(level, rest),
        _ => Err(refused(FormCode::NotCanonical, bytes)),
    }
}

/// Evidence at the front.
#[cycle(evidence)]
pub fn evidence_of(level: Level, bytes: &[u8]) -> Result<(Evidence, &[u8]), ReadFault>
    ensures { Gives (λ x. (evidence_tree x.0, x.1.now)) result (nested_at level.depth form.Evidence bytes.now) }
{
    if bytes.len() == 0 {
        return Err(short());
    }
    if level.depth == 0 {
        return Err(refused(FormCode::FormLimit, bytes));
    }
    evidence_body(
        Level {
            alloc: level.alloc,
            depth: level.depth - 1,
        },
        bytes,
    )
}

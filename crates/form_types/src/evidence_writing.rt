// Evidence as bytes.

ghost use Rattle.std.specs.Prelude.{◌≡◌, ◌++◌, OnOk, map};
ghost use Rattle.form_grammar.specs.Trees.{spelling, chain, list_of};
ghost use Rattle.slang_core.specs.EvidenceTrees.{evidence_tree, evidence_part};

use crate::writing::{put_args, put_name, put_ref};
use form_grammar::{put_count, put_num};
use slang_core::Evidence;
use std::alloc::AllocError;

#[cycle(put_evidence)]
fn put_evidence_items(out: &mut Vec<u8>, items: &[Evidence]) -> Result<(), AllocError>
    ensures { OnOk result (out.new.items ≡ out.old.items ++ spelling (chain (map evidence_part items.now))) }
{
    for item in items {
        put_evidence(out, item)?;
    }
    Ok(())
}

/// Appends a list of evidence.
#[cycle(put_evidence)]
#[tactic(auto, using(std::proofs::lemmas::List::append_assoc, form_grammar::proofs::Chains::size_chain))]
pub fn put_evidences(out: &mut Vec<u8>, items: &[Evidence]) -> Result<(), AllocError>
    ensures { OnOk result (out.new.items ≡ out.old.items ++ spelling (list_of evidence_part items.now)) }
{
    put_count(out, items.len())?;
    put_evidence_items(out, items)?;
    Ok(())
}

/// Appends evidence.
#[cycle(put_evidence)]
#[tactic(auto, using(std::proofs::lemmas::List::append_assoc))]
pub fn put_evidence(out: &mut Vec<u8>, evidence: &Evidence) -> Result<(), AllocError>
    ensures { OnOk result (out.new.items ≡ out.old.items ++ spelling (evidence_tree evidence.now)) }
{
    match evidence {
        Evidence::Constraint(number) => {
            out.push(0)?;
            put_num(out, *number)?;
        }
        Evidence::Bound(subject, interface, name) => {
            out.push(1)?;
            put_evidence(out, subject.get())?;
            put_ref(out, interface)?;
            put_name(out, name)?;
        }
        Evidence::Conformance(subject, interface, args, bounds) => {
            out.push(2)?;
            put_ref(out, subject)?;
            put_ref(out, interface)?;
            put_args(out, args.as_slice())?;
            put_evidences(out, bounds.as_slice())?;
        }
    }
    Ok(())
}

// The parts of declarations.

ghost use Rattle.std.specs.Prelude.{◌≡◌, ◌++◌, ◌∷◌, [], OnOk};
ghost use Rattle.form_grammar.specs.Trees.{spelling, text, list_of};
ghost use Rattle.form_grammar.specs.Grammar as form;
ghost use Rattle.form_grammar.specs.Grammar.{◌▹◌};
ghost use Rattle.form_grammar.specs.Numbers.{after};
ghost use Rattle.form_grammar.specs.Reading.{Gives, form_at, nested_at};
ghost use Rattle.slang_core.specs.TypeTrees.{ref_tree, option_of};
ghost use Rattle.slang_core.specs.EvidenceTrees.{evidence_part};
ghost use Rattle.slang_core.specs.DeclarationTrees.{term_tree, generic_param_tree, constraint_tree, params_tree, field_tree, bind_tree, conf_tree, par_tree, assoc_tree, req_tree, entry_tree, binding_tree, built_in_tree};

use crate::items::{Stored, list_at, option_at, put_list, put_option};
use crate::marks::{
    access_byte, access_of, built_in_byte, built_in_of, flags_byte, flags_of, mode_byte, mode_of,
};
use form_grammar::{Level, ReadFault, number_at, put_num, refused, short};
use form_types::{
    evidences_of, name_of, put_evidences, put_name, put_ref, put_term, ref_of, term_of,
};
use slang_core::{
    Assoc, Bind, Binding, BuiltIn, Conf, Constraint, Entry, Field, GenericParam, Par, Params, Req,
    TypeTerm,
};
use slang_names::{FormCode, Name, Ref};
use std::alloc::AllocError;

/// A type at the front, nested in what stands around it.
#[tactic(auto, unfolding(form_grammar::specs::Reading::form_at, form_grammar::specs::Numbers::after))]
pub fn term_at(level: Level, bytes: &[u8]) -> Result<(TypeTerm, &[u8]), ReadFault>
    ensures { Gives (λ x. (term_tree x.0, x.1.now)) result (form_at (nested_at level.depth) (form.part form.Term) bytes.now) }
{
    term_of(level, bytes)
}

impl Stored for Name {
    ghost form = { form.name };

    ghost tree = { λ n. text n };

    #[tactic(auto, unfolding(form_grammar::specs::Reading::form_at, form_grammar::specs::Numbers::after))]
    fn read(level: Level, bytes: &[u8]) -> Result<(Name, &[u8]), ReadFault> {
        name_of(level, bytes)
    }

    #[tactic(auto, using(std::proofs::lemmas::List::append_assoc))]
    fn put(&self, out: &mut Vec<u8>) -> Result<(), AllocError> {
        put_name(out, self)?;
        Ok(())
    }
}

impl Stored for Ref {
    ghost form = { form.ref };

    ghost tree = { ref_tree };

    #[tactic(auto, unfolding(form_grammar::specs::Reading::form_at, form_grammar::specs::Numbers::after))]
    fn read(level: Level, bytes: &[u8]) -> Result<(Ref, &[u8]), ReadFault> {
        ref_of(level, bytes)
    }

    #[tactic(auto, using(std::proofs::lemmas::List::append_assoc))]
    fn put(&self, out: &mut Vec<u8>) -> Result<(), AllocError> {
        put_ref(out, self)?;
        Ok(())
    }
}

impl Stored for TypeTerm {
    ghost form = { form.part form.Term };

    ghost tree = { term_tree };

    #[tactic(auto, unfolding(form_grammar::specs::Reading::form_at, form_grammar::specs::Numbers::after))]
    fn read(level: Level, bytes: &[u8]) -> Result<(TypeTerm, &[u8]), ReadFault> {
        term_of(level, bytes)
    }

    #[tactic(auto, using(std::proofs::lemmas::List::append_assoc))]
    fn put(&self, out: &mut Vec<u8>) -> Result<(), AllocError> {
        put_term(out, self)?;
        Ok(())
    }
}

impl Stored for BuiltIn {
    ghost form = { form.range 0 3 };

    ghost tree = { built_in_tree };

    #[tactic(auto, unfolding(form_grammar::specs::Reading::form_at, form_grammar::specs::Numbers::after))]
    fn read(level: Level, bytes: &[u8]) -> Result<(BuiltIn, &[u8]), ReadFault> {
        built_in_of(level, bytes)
    }

    #[tactic(auto, using(std::proofs::lemmas::List::append_assoc))]
    fn put(&self, out: &mut Vec<u8>) -> Result<(), AllocError> {
        out.push(built_in_byte(*self))?;
        Ok(())
    }
}

impl Stored for GenericParam {
    ghost form = { form.alt 0 form.name (form.tag 1 form.name) };

    ghost tree = { generic_param_tree };

    #[tactic(auto, unfolding(form_grammar::specs::Reading::form_at, form_grammar::specs::Numbers::after))]
    fn read(level: Level, bytes: &[u8]) -> Result<(GenericParam, &[u8]), ReadFault> {
        match bytes {
            [] => Err(short()),
            [0, rest @ ..] => {
                let (name, rest) = name_of(level, rest)?;
                Ok((GenericParam::Term(name), rest))
            }
            [1, rest @ ..] => {
                let (name, rest) = name_of(level, rest)?;
                Ok((GenericParam::Fixed(name), rest))
            }
            _ => Err(refused(FormCode::NotCanonical, bytes)),
        }
    }

    #[tactic(auto, using(std::proofs::lemmas::List::append_assoc))]
    fn put(&self, out: &mut Vec<u8>) -> Result<(), AllocError> {
        match self {
            GenericParam::Term(name) => {
                out.push(0)?;
                put_name(out, name)?;
            }
            GenericParam::Fixed(name) => {
                out.push(1)?;
                put_name(out, name)?;
            }
        }
        Ok(())
    }
}

impl Stored for Constraint {
    ghost form = { form.num ▹ form.ref };

    ghost tree = { constraint_tree };

    #[tactic(auto, unfolding(form_grammar::specs::Reading::form_at, form_grammar::specs::Numbers::after))]
    fn read(level: Level, bytes: &[u8]) -> Result<(Constraint, &[u8]), ReadFault> {
        let (parameter, rest) = number_at(bytes)?;
        let (interface, rest) = ref_of(level, rest)?;
        Ok((
            Constraint {
                parameter,
                interface,
            },
            rest,
        ))
    }

    #[tactic(auto, using(std::proofs::lemmas::List::append_assoc))]
    fn put(&self, out: &mut Vec<u8>) -> Result<(), AllocError> {
        put_num(out, self.parameter)?;
        put_ref(out, &self.interface)?;
        Ok(())
    }
}

impl Stored for Params {
    ghost form = { form.params };

    ghost tree = { params_tree };

    #[tactic(auto, unfolding(form_grammar::specs::Reading::form_at, form_grammar::specs::Numbers::after))]
    fn read(level: Level, bytes: &[u8]) -> Result<(Params, &[u8]), ReadFault> {
        let (list, rest) = list_at(level, bytes)?;
        let (constraints, rest) = list_at(level, rest)?;
        Ok((Params { list, constraints }, rest))
    }

    #[tactic(auto, using(std::proofs::lemmas::List::append_assoc))]
    fn put(&self, out: &mut Vec<u8>) -> Result<(), AllocError> {
        put_list(out, self.list.as_slice())?;
        put_list(out, self.constraints.as_slice())?;
        Ok(())
    }
}

impl Stored for Field {
    ghost form = { form.field };

    ghost tree = { field_tree };

    #[tactic(auto, unfolding(form_grammar::specs::Reading::form_at, form_grammar::specs::Numbers::after))]
    fn read(level: Level, bytes: &[u8]) -> Result<(Field, &[u8]), ReadFault> {
        let (name, rest) = name_of(level, bytes)?;
        let (access, rest) = access_of(level, rest)?;
        let (of, rest) = term_at(level, rest)?;
        Ok((Field { name, access, of }, rest))
    }

    #[tactic(auto, using(std::proofs::lemmas::List::append_assoc))]
    fn put(&self, out: &mut Vec<u8>) -> Result<(), AllocError> {
        put_name(out, &self.name)?;
        out.push(access_byte(self.access))?;
        put_term(out, &self.of)?;
        Ok(())
    }
}

impl Stored for Bind {
    ghost form = { form.bind };

    ghost tree = { bind_tree };

    #[tactic(auto, unfolding(form_grammar::specs::Reading::form_at, form_grammar::specs::Numbers::after))]
    fn read(level: Level, bytes: &[u8]) -> Result<(Bind, &[u8]), ReadFault> {
        let (name, rest) = name_of(level, bytes)?;
        let (access, rest) = access_of(level, rest)?;
        let (of, rest) = term_at(level, rest)?;
        Ok((Bind { name, access, of }, rest))
    }

    #[tactic(auto, using(std::proofs::lemmas::List::append_assoc))]
    fn put(&self, out: &mut Vec<u8>) -> Result<(), AllocError> {
        put_name(out, &self.name)?;
        out.push(access_byte(self.access))?;
        put_term(out, &self.of)?;
        Ok(())
    }
}

impl Stored for Conf {
    ghost form = { form.conf };

    ghost tree = { conf_tree };

    #[tactic(auto, unfolding(form_grammar::specs::Reading::form_at, form_grammar::specs::Numbers::after))]
    fn read(level: Level, bytes: &[u8]) -> Result<(Conf, &[u8]), ReadFault> {
        let (interface, rest) = ref_of(level, bytes)?;
        let (associated, rest) = list_at(level, rest)?;
        let (bounds, rest) = evidences_of(level, rest)?;
        let (members, rest) = list_at(level, rest)?;
        Ok((
            Conf {
                interface,
                associated,
                bounds,
                members,
            },
            rest,
        ))
    }

    #[tactic(auto, using(std::proofs::lemmas::List::append_assoc))]
    fn put(&self, out: &mut Vec<u8>) -> Result<(), AllocError> {
        put_ref(out, &self.interface)?;
        put_list(out, self.associated.as_slice())?;
        put_evidences(out, self.bounds.as_slice())?;
        put_list(out, self.members.as_slice())?;
        Ok(())
    }
}

impl Stored for Par {
    ghost form = { form.par };

    ghost tree = { par_tree };

    #[tactic(auto, unfolding(form_grammar::specs::Reading::form_at, form_grammar::specs::Numbers::after))]
    fn read(level: Level, bytes: &[u8]) -> Result<(Par, &[u8]), ReadFault> {
        let (mode, rest) = mode_of(level, bytes)?;
        let (of, rest) = term_at(level, rest)?;
        Ok((Par { mode, of }, rest))
    }

    #[tactic(auto, using(std::proofs::lemmas::List::append_assoc))]
    fn put(&self, out: &mut Vec<u8>) -> Result<(), AllocError> {
        out.push(mode_byte(self.mode))?;
        put_term(out, &self.of)?;
        Ok(())
    }
}

impl Stored for Assoc {
    ghost form = { form.name ▹ form.opt form.ref };

    ghost tree = { assoc_tree };

    #[tactic(auto, unfolding(form_grammar::specs::Reading::form_at, form_grammar::specs::Numbers::after))]
    fn read(level: Level, bytes: &[u8]) -> Result<(Assoc, &[u8]), ReadFault> {
        let (name, rest) = name_of(level, bytes)?;
        let (bound, rest) = option_at(level, rest)?;
        Ok((Assoc { name, bound }, rest))
    }

    #[tactic(auto, using(std::proofs::lemmas::List::append_assoc))]
    fn put(&self, out: &mut Vec<u8>) -> Result<(), AllocError> {
        put_name(out, &self.name)?;
        put_option(out, &self.bound)?;
        Ok(())
    }
}

impl Stored for Req {
    ghost form = { form.req };

    ghost tree = { req_tree };

    #[tactic(auto, unfolding(form_grammar::specs::Reading::form_at, form_grammar::specs::Numbers::after))]
    fn read(level: Level, bytes: &[u8]) -> Result<(Req, &[u8]), ReadFault> {
        let (name, rest) = name_of(level, bytes)?;
        let (flags, rest) = flags_of(level, rest)?;
        let (parameters, rest) = list_at(level, rest)?;
        let (result, rest) = term_at(level, rest)?;
        Ok((
            Req {
                name,
                flags,
                parameters,
                result,
            },
            rest,
        ))
    }

    #[tactic(auto, using(std::proofs::lemmas::List::append_assoc))]
    fn put(&self, out: &mut Vec<u8>) -> Result<(), AllocError> {
        put_name(out, &self.name)?;
        out.push(flags_byte(self.flags))?;
        put_list(out, self.parameters.as_slice())?;
        put_term(out, &self.result)?;
        Ok(())
    }
}

impl Stored for Entry {
    ghost form = { form.entry };

    ghost tree = { entry_tree };

    #[tactic(auto, unfolding(form_grammar::specs::Reading::form_at, form_grammar::specs::Numbers::after))]
    fn read(level: Level, bytes: &[u8]) -> Result<(Entry, &[u8]), ReadFault> {
        let (x, rest) = number_at(bytes)?;
        let (y, rest) = number_at(rest)?;
        let (z, rest) = number_at(rest)?;
        let (inputs, rest) = list_at(level, rest)?;
        Ok((Entry { x, y, z, inputs }, rest))
    }

    #[tactic(auto, using(std::proofs::lemmas::List::append_assoc))]
    fn put(&self, out: &mut Vec<u8>) -> Result<(), AllocError> {
        put_num(out, self.x)?;
        put_num(out, self.y)?;
        put_num(out, self.z)?;
        put_list(out, self.inputs.as_slice())?;
        Ok(())
    }
}

impl Stored for Binding {
    ghost form = { form.num ▹ form.num };

    ghost tree = { binding_tree };

    #[tactic(auto, unfolding(form_grammar::specs::Reading::form_at, form_grammar::specs::Numbers::after))]
    fn read(level: Level, bytes: &[u8]) -> Result<(Binding, &[u8]), ReadFault> {
        let (number, rest) = number_at(bytes)?;
        let (set, rest) = number_at(rest)?;
        Ok((Binding { number, set }, rest))
    }

    #[tactic(auto, using(std::proofs::lemmas::List::append_assoc))]
    fn put(&self, out: &mut Vec<u8>) -> Result<(), AllocError> {
        put_num(out, self.number)?;
        put_num(out, self.set)?;
        Ok(())
    }
}

// Declarations and interfaces.

ghost use Rattle.std.specs.Prelude.{◌≡◌, ◌++◌, ◌∷◌, [], OnOk};
ghost use Rattle.form_grammar.specs.Trees.{◌▸◌, spelling, text, list_of};
ghost use Rattle.form_grammar.specs.Grammar as form;
ghost use Rattle.form_grammar.specs.Grammar.{◌▹◌};
ghost use Rattle.form_grammar.specs.Numbers.{after};
ghost use Rattle.form_grammar.specs.Reading.{Gives, form_at, nested_at};
ghost use Rattle.slang_core.specs.TypeTrees.{ref_tree, option_of, scalar_tree};
ghost use Rattle.slang_core.specs.DeclarationTrees.{par_tree, term_tree, entry_tree, params_tree, struct_tree, interface_decl_tree, extension_tree, function_tree, alias_tree, constant_tree, global_tree, decl_tree, interface_tree};

use crate::items::{Stored, list_at, option_at, put_list, put_option};
use crate::marks::{access_byte, access_of, flags_byte, flags_of};
use crate::parts::term_at;
use form_grammar::{Level, ReadFault, number_at, put_num, refused, short};
use form_types::{name_of, put_name, put_ref, put_term, ref_of, scalar_byte, scalar_of};
use slang_core::{
    AliasDecl, ConstantDecl, Decl, ExtensionDecl, FunctionDecl, GlobalDecl, Interface,
    InterfaceDecl, Params, StructDecl,
};
use slang_names::FormCode;
use std::alloc::AllocError;

impl Stored for StructDecl {
    ghost form = { form.name ▹ form.acc ▹ form.params ▹ form.list form.field ▹ form.list form.conf ▹ form.list form.bind };

    ghost tree = { struct_tree };

    #[tactic(auto, unfolding(form_grammar::specs::Reading::form_at, form_grammar::specs::Numbers::after))]
    fn read(level: Level, bytes: &[u8]) -> Result<(StructDecl, &[u8]), ReadFault> {
        let (path, rest) = name_of(level, bytes)?;
        let (access, rest) = access_of(level, rest)?;
        let (params, rest) = Params::read(level, rest)?;
        let (fields, rest) = list_at(level, rest)?;
        let (conformances, rest) = list_at(level, rest)?;
        let (bindings, rest) = list_at(level, rest)?;
        Ok((
            StructDecl {
                path,
                access,
                params,
                fields,
                conformances,
                bindings,
            },
            rest,
        ))
    }

    #[tactic(auto, using(std::proofs::lemmas::List::append_assoc))]
    fn put(&self, out: &mut Vec<u8>) -> Result<(), AllocError> {
        put_name(out, &self.path)?;
        out.push(access_byte(self.access))?;
        self.params.put(out)?;
        put_list(out, self.fields.as_slice())?;
        put_list(out, self.conformances.as_slice())?;
        put_list(out, self.bindings.as_slice())?;
        Ok(())
    }
}

impl Stored for InterfaceDecl {
    ghost form = { form.name ▹ form.acc ▹ form.list (form.name ▹ form.opt form.ref) ▹ form.list form.req };

    ghost tree = { interface_decl_tree };

    #[tactic(auto, unfolding(form_grammar::specs::Reading::form_at, form_grammar::specs::Numbers::after))]
    fn read(level: Level, bytes: &[u8]) -> Result<(InterfaceDecl, &[u8]), ReadFault> {
        let (path, rest) = name_of(level, bytes)?;
        let (access, rest) = access_of(level, rest)?;
        let (associated, rest) = list_at(level, rest)?;
        let (requirements, rest) = list_at(level, rest)?;
        Ok((
            InterfaceDecl {
                path,
                access,
                associated,
                requirements,
            },
            rest,
        ))
    }

    #[tactic(auto, using(std::proofs::lemmas::List::append_assoc))]
    fn put(&self, out: &mut Vec<u8>) -> Result<(), AllocError> {
        put_name(out, &self.path)?;
        out.push(access_byte(self.access))?;
        put_list(out, self.associated.as_slice())?;
        put_list(out, self.requirements.as_slice())?;
        Ok(())
    }
}

impl Stored for ExtensionDecl {
    ghost form = { form.ref ▹ form.params ▹ form.list form.conf ▹ form.list form.bind };

    ghost tree = { extension_tree };

    #[tactic(auto, unfolding(form_grammar::specs::Reading::form_at, form_grammar::specs::Numbers::after))]
    fn read(level: Level, bytes: &[u8]) -> Result<(ExtensionDecl, &[u8]), ReadFault> {
        let (subject, rest) = ref_of(level, bytes)?;
        let (params, rest) = Params::read(level, rest)?;
        let (conformances, rest) = list_at(level, rest)?;
        let (bindings, rest) = list_at(level, rest)?;
        Ok((
            ExtensionDecl {
                subject,
                params,
                conformances,
                bindings,
            },
            rest,
        ))
    }

    #[tactic(auto, using(std::proofs::lemmas::List::append_assoc))]
    fn put(&self, out: &mut Vec<u8>) -> Result<(), AllocError> {
        put_ref(out, &self.subject)?;
        self.params.put(out)?;
        put_list(out, self.conformances.as_slice())?;
        put_list(out, self.bindings.as_slice())?;
        Ok(())
    }
}

/// Appends what a function takes and gives, and how it is entered.
#[tactic(auto, using(std::proofs::lemmas::List::append_assoc))]
fn put_signature(out: &mut Vec<u8>, decl: &FunctionDecl) -> Result<(), AllocError>
    ensures { OnOk result (out.new.items ≡ out.old.items ++ spelling (list_of par_tree decl.now.parameters ▸ term_tree decl.now.result ▸ option_of entry_tree decl.now.entry)) }
{
    put_list(out, decl.parameters.as_slice())?;
    put_term(out, &decl.result)?;
    put_option(out, &decl.entry)?;
    Ok(())
}

impl Stored for FunctionDecl {
    ghost form = { form.function };

    ghost tree = { function_tree };

    #[tactic(auto, unfolding(form_grammar::specs::Reading::form_at, form_grammar::specs::Numbers::after))]
    fn read(level: Level, bytes: &[u8]) -> Result<(FunctionDecl, &[u8]), ReadFault> {
        let (path, rest) = name_of(level, bytes)?;
        let (access, rest) = access_of(level, rest)?;
        let (owner, rest) = option_at(level, rest)?;
        let (flags, rest) = flags_of(level, rest)?;
        let (params, rest) = Params::read(level, rest)?;
        let (parameters, rest) = list_at(level, rest)?;
        let (result, rest) = term_at(level, rest)?;
        let (entry, rest) = option_at(level, rest)?;
        Ok((
            FunctionDecl {
                path,
                access,
                owner,
                flags,
                params,
                parameters,
                result,
                entry,
            },
            rest,
        ))
    }

    #[tactic(auto, using(std::proofs::lemmas::List::append_assoc))]
    fn put(&self, out: &mut Vec<u8>) -> Result<(), AllocError> {
        put_name(out, &self.path)?;
        out.push(access_byte(self.access))?;
        put_option(out, &self.owner)?;
        out.push(flags_byte(self.flags))?;
        self.params.put(out)?;
        put_signature(out, self)?;
        Ok(())
    }
}

impl Stored for AliasDecl {
    ghost form = { form.name ▹ form.acc ▹ form.part form.Term };

    ghost tree = { alias_tree };

    #[tactic(auto, unfolding(form_grammar::specs::Reading::form_at, form_grammar::specs::Numbers::after))]
    fn read(level: Level, bytes: &[u8]) -> Result<(AliasDecl, &[u8]), ReadFault> {
        let (path, rest) = name_of(level, bytes)?;
        let (access, rest) = access_of(level, rest)?;
        let (of, rest) = term_at(level, rest)?;
        Ok((AliasDecl { path, access, of }, rest))
    }

    #[tactic(auto, using(std::proofs::lemmas::List::append_assoc))]
    fn put(&self, out: &mut Vec<u8>) -> Result<(), AllocError> {
        put_name(out, &self.path)?;
        out.push(access_byte(self.access))?;
        put_term(out, &self.of)?;
        Ok(())
    }
}

impl Stored for ConstantDecl {
    ghost form = { form.name ▹ form.acc ▹ form.range 2 3 ▹ form.num };

    ghost tree = { constant_tree };

    #[tactic(auto, unfolding(form_grammar::specs::Reading::form_at, form_grammar::specs::Numbers::after))]
    fn read(level: Level, bytes: &[u8]) -> Result<(ConstantDecl, &[u8]), ReadFault> {
        let (path, rest) = name_of(level, bytes)?;
        let (access, rest) = access_of(level, rest)?;
        let (scalar, rest) = scalar_of(level, rest)?;
        let (bits, rest) = number_at(rest)?;
        Ok((
            ConstantDecl {
                path,
                access,
                scalar,
                bits,
            },
            rest,
        ))
    }

    #[tactic(auto, using(std::proofs::lemmas::List::append_assoc))]
    fn put(&self, out: &mut Vec<u8>) -> Result<(), AllocError> {
        put_name(out, &self.path)?;
        out.push(access_byte(self.access))?;
        out.push(scalar_byte(self.scalar))?;
        put_num(out, self.bits)?;
        Ok(())
    }
}

impl Stored for GlobalDecl {
    ghost form = { form.name ▹ form.acc ▹ form.part form.Term ▹ form.opt (form.num ▹ form.num) };

    ghost tree = { global_tree };

    #[tactic(auto, unfolding(form_grammar::specs::Reading::form_at, form_grammar::specs::Numbers::after))]
    fn read(level: Level, bytes: &[u8]) -> Result<(GlobalDecl, &[u8]), ReadFault> {
        let (path, rest) = name_of(level, bytes)?;
        let (access, rest) = access_of(level, rest)?;
        let (of, rest) = term_at(level, rest)?;
        let (binding, rest) = option_at(level, rest)?;
        Ok((
            GlobalDecl {
                path,
                access,
                of,
                binding,
            },
            rest,
        ))
    }

    #[tactic(auto, using(std::proofs::lemmas::List::append_assoc))]
    fn put(&self, out: &mut Vec<u8>) -> Result<(), AllocError> {
        put_name(out, &self.path)?;
        out.push(access_byte(self.access))?;
        put_term(out, &self.of)?;
        put_option(out, &self.binding)?;
        Ok(())
    }
}

impl Stored for Decl {
    ghost form = { form.decl };

    ghost tree = { decl_tree };

    #[tactic(auto, unfolding(form_grammar::specs::Reading::form_at, form_grammar::specs::Numbers::after))]
    fn read(level: Level, bytes: &[u8]) -> Result<(Decl, &[u8]), ReadFault> {
        match bytes {
            [] => Err(short()),
            [1, rest @ ..] => {
                let (decl, rest) = StructDecl::read(level, rest)?;
                Ok((Decl::Struct(decl), rest))
            }
            [2, rest @ ..] => {
                let (decl, rest) = InterfaceDecl::read(level, rest)?;
                Ok((Decl::Interface(decl), rest))
            }
            [3, rest @ ..] => {
                let (decl, rest) = ExtensionDecl::read(level, rest)?;
                Ok((Decl::Extension(decl), rest))
            }
            [4, rest @ ..] => {
                let (decl, rest) = FunctionDecl::read(level, rest)?;
                Ok((Decl::Function(decl), rest))
            }
            [5, rest @ ..] => {
                let (decl, rest) = AliasDecl::read(level, rest)?;
                Ok((Decl::Alias(decl), rest))
            }
            [6, rest @ ..] => {
                let (decl, rest) = ConstantDecl::read(level, rest)?;
                Ok((Decl::Constant(decl), rest))
            }
            [7, rest @ ..] => {
                let (decl, rest) = GlobalDecl::read(level, rest)?;
                Ok((Decl::Global(decl), rest))
            }
            _ => Err(refused(FormCode::NotCanonical, bytes)),
        }
    }

    #[tactic(auto, using(std::proofs::lemmas::List::append_assoc))]
    fn put(&self, out: &mut Vec<u8>) -> Result<(), AllocError> {
        match self {
            Decl::Struct(decl) => {
                out.push(1)?;
                decl.put(out)?;
            }
            Decl::Interface(decl) => {
                out.push(2)?;
                decl.put(out)?;
            }
            Decl::Extension(decl) => {
                out.push(3)?;
                decl.put(out)?;
            }
            Decl::Function(decl) => {
                out.push(4)?;
                decl.put(out)?;
            }
            Decl::Alias(decl) => {
                out.push(5)?;
                decl.put(out)?;
            }
            Decl::Constant(decl) => {
                out.push(6)?;
                decl.put(out)?;
            }
            Decl::Global(decl) => {
                out.push(7)?;
                decl.put(out)?;
            }
        }
        Ok(())
    }
}

impl Stored for Interface {
    ghost form = { form.interface };

    ghost tree = { interface_tree };

    #[tactic(auto, unfolding(form_grammar::specs::Reading::form_at, form_grammar::specs::Numbers::after))]
    fn read(level: Level, bytes: &[u8]) -> Result<(Interface, &[u8]), ReadFault> {
        let (name, rest) = name_of(level, bytes)?;
        let (imports, rest) = list_at(level, rest)?;
        let (decls, rest) = list_at(level, rest)?;
        Ok((
            Interface {
                name,
                imports,
                decls,
            },
            rest,
        ))
    }

    #[tactic(auto, using(std::proofs::lemmas::List::append_assoc))]
    fn put(&self, out: &mut Vec<u8>) -> Result<(), AllocError> {
        put_name(out, &self.name)?;
        put_list(out, self.imports.as_slice())?;
        put_list(out, self.decls.as_slice())?;
        Ok(())
    }
}

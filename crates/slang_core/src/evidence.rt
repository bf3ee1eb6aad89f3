// Evidence that a type conforms to an interface.

use crate::Arg;
use slang_names::{Name, Ref};
use sqlite_items::{Boxed, Items};

/// Why a type conforms to an interface.
#[derive(Drop)]
pub enum Evidence {
    /// The constraint of that number of the declaration around it says so.
    Constraint(u32),
    /// Evidence for an interface whose associated type of that name is bounded.
    Bound(Boxed<Evidence>, Ref, Name),
    /// A struct's declared conformance: the struct, the interface, the struct's arguments, and evidence
    /// for the constraints of the declaration.
    Conformance(Ref, Ref, Items<Arg>, Items<Evidence>),
}

//! What the cores of a program's modules say, in the kernel, and so what the program means.
#![tactic(auto)]

mod laws;

pub use laws::more_extends_a_source;

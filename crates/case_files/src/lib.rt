//! Files in memory for scripts of cases: from some time on, their reads or their puts fail.
#![tactic(auto)]

mod failing;

pub use failing::CaseFiles;

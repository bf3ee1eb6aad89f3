//! `stored_cases`: what comes of stored modules. Each word behind the program's name is a file with a script of cases; its
//! lines are
//!
//!     # ..            a remark
//!     title ..        is printed
//!     before BYTES    what stands before the bytes of the modules that follow
//!     more BYTES      more of what stands before them
//!     behind BYTES    what stands behind them
//!     module BYTES    a module: it is decoded and encoded again
//!     cut BYTES       a module, and each of its beginnings
//!
//! BYTES are words in hexadecimal, two digits a byte; `N*WORD` is a word N times, and `'TEXT` is the bytes of a text.
#![tactic(auto)]

mod answers;
mod script;

use script::run_script;
use std::{env, fs, io};

fn main(rt: HostRuntime) -> io::Result<()> {
    let mut args = env::args(&rt)?;
    let _program = args.next();
    for name in args {
        let text = fs::read_to_string(&rt, name)?;
        run_script(&rt, text.as_str())?;
    }
    Ok(())
}

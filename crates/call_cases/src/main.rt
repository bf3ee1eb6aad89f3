//! `call_cases`: what comes of whole calls of the compiler over files in memory. Each word behind the program's name is a file
//! with a script, which begins without a file; its lines are
//!
//!     # ..               a remark
//!     title TEXT         is printed
//!
//! What is built, piece by piece:
//!
//!     text TEXT          a text
//!     times N TEXT       a text N times
//!     series A B TEXT    a text for each number from A to before B, with the number in place of the first `$`
//!     bytes BYTES        bytes in hexadecimal, two digits a byte
//!     words WORDS        words of 32 bits in hexadecimal, the lowest byte of each first
//!     put NAME           the file NAME holds what was built, and nothing is built any more
//!     base               what was built is the words that `swap` changes, and nothing is built any more
//!
//! Calls:
//!
//!     reads N · puts N   so many more reads or puts come about, and each later one fails
//!     room N             how many bytes the output of each call takes
//!     clear              there is no file any more
//!     call WORDS         a call: its status and what it printed are printed
//!     host WORDS         a call over the files of the folder and the output of this program
//!     show NAME          prints what a file holds
//!     length NAME        prints how many bytes a file holds
//!     same NAME NAME     prints whether two files hold the same
//!
//! Cases, each of which gives a file its bytes and makes a call:
//!
//!     each NAME WORDS    NAME is that file, and WORDS the call
//!     try TEXT           the file is a text
//!     many N A$B$C$D$E   the file is A, N times B, C, N times D, and E
//!     swap A B WORDS     the file is the base with WORDS in place of its words from A to before B
//!
//! In a TEXT `\n`, `\r`, `\t`, `\v` and `\s` are a line feed, a carriage return, a tab, a vertical tab and a blank, and a backslash
//! before any other byte is that byte. In WORDS and BYTES, `N*WORD` is a word N times.
#![tactic(auto)]

mod builds;
mod calls;
mod cases;
mod script;
mod texts;

use script::run_script;
use std::{env, fs, io};

fn main(rt: HostRuntime) -> io::Result<()> {
    let mut args = env::args(&rt)?;
    let _program = args.next();
    for name in args {
        let text = fs::read_to_string(&rt, name)?;
        run_script(&rt, text.as_str())?;
    }
    Ok(())
}

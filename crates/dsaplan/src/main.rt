//! Plans storage for buffers of known lifetime: hands the words, the real files and standard output
//! to the one call that does the work, and ends with its status's code.
#![tactic(auto)]

use dsa_outside::{DiskFiles, StdSink};
use dsaplan_core::run;
use std::env;
use std::process::ExitCode;

/// What the program ends with where the runtime does not give it its words.
const NO_WORDS: u8 = 8;

fn main(rt: HostRuntime) -> ExitCode {
    let Ok(args) = env::args(&rt) else {
        return ExitCode::from(NO_WORDS);
    };
    let Ok(words) = args.skip(1).collect::<Vec<String>>(rt.alloc()) else {
        return ExitCode::from(NO_WORDS);
    };
    let mut files = DiskFiles::new(&rt, rt.alloc());
    let mut out = StdSink::new(&rt);
    let status = run(rt.alloc(), words.as_slice(), &mut files, &mut out);
    ExitCode::from(status.code())
}

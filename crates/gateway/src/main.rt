//! The gateway's program.
//!
//! `main` makes the real input and output and the machine's files, sockets and stores, and hands them, with the words of the
//! command line, to [`gateway_cli::run`], which does all that the program does. Its exit status is what `run` answers. On
//! standard error it says where it listens.
#![tactic(auto)]

use gateway_cli::{HELP, run};
use gateway_machine::{MachineOutside, ReaderSource, WriterSink};
use gateway_stores::FileStores;
use gw_base::{Text, write_all};
use std::alloc::Global;
use std::env;
use std::process::ExitCode;
use std::rt::Env;

// The words behind the program's name. Words that can't be read are answered as none, which are no command's.
fn words_of(rt: &(impl Env + AllocGlobal), alloc: Global) -> Vec<Text> {
    let mut words = Vec::new(alloc);
    let Ok(args) = env::args(rt) else {
        return words;
    };
    for word in args.skip(1) {
        if words.push(Text::of(word)).is_err() {
            return Vec::new(alloc);
        }
    }
    words
}

fn main(rt: HostRuntime) -> ExitCode {
    let alloc = rt.alloc();
    let words = words_of(&rt, alloc);
    let mut input = ReaderSource::new(rt.stdin());
    let mut output = WriterSink::new(rt.stdout());
    let mut outside = MachineOutside::new(&rt, alloc, FileStores::new(&rt), rt.stderr());
    let status = run(&rt, alloc, &words, &mut input, &mut output, &mut outside);
    if status == 2 {
        let _ = write_all(&mut WriterSink::new(rt.stderr()), HELP);
    }
    ExitCode::from(status)
}

//! asmck over the files and the standard output of the host.
#![tactic(auto)]

use ck_app::run;
use ck_ports::{HostFiles, HostSink};
use std::process::ExitCode;
use std::{env, io};

fn main(rt: HostRuntime) -> io::Result<ExitCode> {
    let words: Vec<String> = env::args(&rt)?.collect(rt.alloc())?;
    let mut files = HostFiles::new(&rt);
    let mut out = HostSink::new(&rt);
    let status = run(rt.alloc(), words.as_slice(), &mut files, &mut out);
    Ok(ExitCode::from(status.code()))
}

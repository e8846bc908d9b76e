//! The program `roam` with the command `show` alone. It needs the terminal, and nothing of the network.
//!
//! `./roam show` runs it before the whole program is built, since it is proved in a fraction of the time.
#![tactic(auto)]

use roam_cli::{Request, asked, words_of};
use roam_faults::end;
use roam_show::run_show;
use std::io;
use std::process::ExitCode;

fn main(rt: HostRuntime) -> ExitCode {
    let words = match words_of(&rt) {
        Ok(words) => words,
        Err(status) => return status,
    };
    match asked(&rt, words.as_slice()) {
        Ok(request) => run(&rt, request),
        Err(status) => status,
    }
}

fn run(rt: &HostRuntime, request: Request<'_>) -> ExitCode {
    let Request::Show { rows, cols } = request else {
        // There is nowhere else to say that this failed.
        let _ = eprintln!(rt; "roam: this program has show alone");
        return ExitCode::from(2);
    };
    end(
        rt,
        run_show(
            rt.alloc(),
            rows,
            cols,
            &mut rt.reader(),
            &mut io::writer(rt),
        ),
    )
}

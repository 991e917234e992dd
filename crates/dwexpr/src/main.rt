//! `dwexpr` evaluates DWARF expressions. It prints one answer per line.
#![tactic(auto)]

#[cfg(test)]
mod tests;

use dwexpr_cli::{Layout, Terminal, run_program, run_without_words};
use std::alloc::AllocError;
use std::io::IsTerminal;
use std::process::ExitCode;
use std::{env, io};

fn main(rt: HostRuntime) -> ExitCode {
    let mut terminal = Terminal {
        output: io::writer(&rt),
        errors: rt.stderr(),
    };
    let mut arguments = match env::args(&rt) {
        Ok(arguments) => arguments,
        Err(error) => return ExitCode::from(run_without_words(error, &mut terminal)),
    };
    // The first word is the program's name.
    let _ = arguments.next();
    let collected: Result<Vec<String>, AllocError> = arguments.collect(rt.alloc());
    let layout = if rt.stdout().is_terminal() {
        Layout::Columns
    } else {
        Layout::Tabs
    };
    ExitCode::from(match collected {
        Ok(words) => run_program(
            rt.alloc(),
            words.as_slice(),
            rt.reader(),
            layout,
            &mut terminal,
        ),
        Err(refused) => run_without_words(io::Error::from(refused), &mut terminal),
    })
}

// guldremor: reads a script from standard input, a command a line, and prints one answer line for each.

#![tactic(auto)]

mod answer;
mod commands;
mod lent;
mod session;
mod words;

use answer::Trouble;
use session::Session;
use std::io::{BufRead, BufReader, ErrorKind};
use std::process::ExitCode;

// Makes one line of the script and prints its answer; false where the line is no command. A bool, since no more is asked of it.
fn make_line(
    rt: &HostRuntime,
    session: &mut Session,
    number: usize,
    line: &str,
) -> anyhow::Result<bool> {
    let mut words = line.split_whitespace();
    let Some(name) = words.next() else {
        return Ok(true);
    };
    if name.starts_with('#') {
        return Ok(true);
    }
    match commands::make(session, name, words) {
        Ok(answer) => println!(rt; "{answer}")?,
        Err(Trouble::Memory(e)) => return Err(e.into()),
        Err(trouble @ (Trouble::Refused(_) | Trouble::Fails(_))) => println!(rt; "{trouble}")?,
        Err(trouble) => {
            println!(rt; "error: line {number}: {trouble}")?;
            return Ok(false);
        }
    }
    Ok(true)
}

// Makes every line of standard input; false where one was no command.
fn make_script(rt: &HostRuntime) -> anyhow::Result<bool> {
    let heap = rt.alloc();
    let mut session = Session::new(heap)?;
    let mut all = true;
    for (before, line) in BufReader::new(heap, rt.stdin())?.lines(heap).enumerate() {
        let number = before.saturating_add(1);
        match line {
            Ok(text) => {
                if !make_line(rt, &mut session, number, text.as_str())? {
                    all = false;
                }
            }
            Err(e) => {
                if e.kind() != ErrorKind::InvalidData {
                    return Err(e.into());
                }
                println!(rt; "error: line {number}: not text in UTF-8")?;
                all = false;
            }
        }
    }
    Ok(all)
}

// The exit status is 1 where a line was no command, and where reading, printing or memory failed, which is told apart by its message.
fn main(rt: HostRuntime) -> ExitCode {
    match make_script(&rt) {
        Ok(true) => ExitCode::SUCCESS,
        Ok(false) => ExitCode::FAILURE,
        Err(e) => {
            let _ = eprintln!(rt; "guldremor: {e}");
            ExitCode::FAILURE
        }
    }
}

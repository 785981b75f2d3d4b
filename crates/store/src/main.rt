// Asks a script's calls of the library, line by line, and ends with an account.
#![tactic(auto)]

use engine::outcome::{Failure, Outcome};
use engine::session::Session;
use reports::account::Account;
use reports::picture::Picture;
use std::alloc::{AllocError, Global};
use std::{env, fs, io};

mod words;

use words::words_of;

/// Makes the call on the line, and answers what is printed for it.
fn told(
    heap: Global,
    session: &mut Session,
    number: u64,
    line: &str,
) -> Result<String, AllocError> {
    let words = words_of(heap, line)?;
    if words.is_empty() {
        return Ok(String::new(heap));
    }
    let said = words.join(heap, " ")?;
    match session.make(words.as_slice()) {
        Ok(Outcome::Drawn) => format!(in heap; "{said} -> ok\n{}", Picture(session)),
        Ok(outcome) => format!(in heap; "{said} -> {outcome}\n"),
        Err(Failure::Wrong(wrong)) => format!(in heap; "line {number}: {wrong}: {said}\n"),
        Err(refused) => format!(in heap; "{said} -> {refused}\n"),
    }
}

fn run(rt: &HostRuntime, script: &str) -> anyhow::Result<()> {
    let mut session = Session::new();
    for (number, line) in (1u64..).zip(script.lines()) {
        rt.print(told(rt.alloc(), &mut session, number, line)?)?;
    }
    rt.print(Account(&session))?;
    Ok(())
}

/// The script, or a word on why it can't be read.
fn or_tell(rt: &HostRuntime, name: &str, script: io::Result<String>) -> anyhow::Result<String> {
    if let Err(error) = &script {
        eprintln!(rt; "store: can't read {name}: {error}")?;
    }
    Ok(script?)
}

/// Runs the script in each file that is named, or that on standard input where none is.
fn main(rt: HostRuntime) -> anyhow::Result<()> {
    let mut paths = env::args(&rt)?.skip(1).peekable();
    if paths.peek().is_none() {
        let script = or_tell(
            &rt,
            "standard input",
            io::read_to_string(rt.alloc(), rt.stdin()),
        )?;
        return run(&rt, script.as_str());
    }
    for path in paths {
        let script = or_tell(&rt, path.as_str(), fs::read_to_string(&rt, path.as_str()))?;
        run(&rt, script.as_str())?;
    }
    Ok(())
}

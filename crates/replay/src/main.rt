// Plays sessions from standard input, and prints every answer.
#![tactic(auto)]

mod answers;
mod failure;
mod line;
mod session;

use answers::play;
use failure::{Failure, Fault};
use line::{Line, line_of};
use programs::ending::end;
use session::Session;
use std::alloc::Global;
use std::io::{BufRead, BufReader, BufWriter, Write};
use std::iter;
use std::process::ExitCode;
use std::rt::Files;

// Plays a session that is whole, if there is one.
fn finish<W: Write>(heap: Global, out: &mut W, session: &Option<Session>) -> Result<(), Fault> {
    match session {
        None => Ok(()),
        Some(session) => {
            let placed = session.placed.as_ref().ok_or(Fault::NoStation)?;
            play(heap, out, placed)
        }
    }
}

// One line more; the word `session` ends a session and begins another.
fn take<W: Write>(
    rt: &(impl Files + AllocGlobal),
    out: &mut W,
    session: &mut Option<Session>,
    text: &str,
) -> Result<(), Fault> {
    match line_of(text) {
        Ok(None) => Ok(()),
        Ok(Some(Line::Session)) => {
            finish(rt.alloc(), out, session)?;
            *session = Some(Session::default());
            Ok(())
        }
        Ok(Some(line)) => session.get_or_insert_with(Session::default).take(rt, line),
        Err(unexpected) => Err(Fault::Unexpected(format!(in rt.alloc(); "{unexpected}")?)),
    }
}

// The end of the input counts as a line: there the last session ends.
fn sessions<W: Write>(rt: &HostRuntime, out: &mut W) -> Result<(), Failure> {
    let heap = rt.alloc();
    let mut session = None;
    let lines = BufReader::new(heap, rt.stdin())?.lines(heap);
    for (number, line) in (1u64..).zip(lines.map(Some).chain(iter::once(None))) {
        let taken = match line {
            Some(text) => take(rt, out, &mut session, text?.as_str()),
            None => finish(heap, out, &session),
        };
        taken.map_err(|fault| Failure::Line { number, fault })?;
    }
    Ok(())
}

// What was answered before an error is printed all the same.
fn run(rt: &HostRuntime) -> anyhow::Result<()> {
    let mut out = BufWriter::new(rt.alloc(), rt.stdout())?;
    let result = sessions(rt, &mut out);
    out.flush()?;
    Ok(result?)
}

fn main(rt: HostRuntime) -> ExitCode {
    end(&rt, "replay", run(&rt))
}

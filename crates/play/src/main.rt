// Checks and plays scripts, and shows exchanges with a drive: play (SCRIPT | --image IMAGE COMMAND N)...
#![tactic(auto)]

mod drives;
mod failure;
mod scripts;
mod table;

use drives::{Exchange, show_exchange};
use failure::Failure;
use programs::ending::end;
use scripts::show_script;
use std::env;
use std::io::{BufWriter, Write};
use std::process::ExitCode;

// One thing to play after the other, in the order of the arguments.
fn run(rt: &HostRuntime) -> anyhow::Result<()> {
    let mut words = env::args(rt)?;
    let _ = words.next();
    let mut out = BufWriter::new(rt.alloc(), rt.stdout())?;
    while let Some(word) = words.next() {
        if word.as_str() == "--image" {
            let exchange = Exchange::of_words(&mut words).ok_or(Failure::Usage)?;
            show_exchange(rt, &mut out, exchange)?;
        } else {
            show_script(rt, &mut out, word.as_str())?;
        }
    }
    out.flush()?;
    Ok(())
}

fn main(rt: HostRuntime) -> ExitCode {
    end(&rt, "play", run(&rt))
}

// How a program ends.
ghost use Rattle.std.specs.Prelude.{◌≡◌, OnOk, OnErr};
ghost use Rattle.std.specs.Process.{exit_status};

use std::process::ExitCode;

// The status of a program with that name. An error is told on standard error, and the status is 1.
pub fn end(rt: &impl Eprint, program: &str, outcome: anyhow::Result<()>) -> ExitCode
    ensures ok { OnOk outcome (exit_status result ≡ 0) }
    ensures err { OnErr outcome (exit_status result ≡ 1) }
{
    match outcome {
        Ok(()) => ExitCode::SUCCESS,
        Err(error) => {
            let _ = eprintln!(rt; "{program}: {error}");
            ExitCode::FAILURE
        }
    }
}

// Plays the script on standard input with the slot set, and writes the play to standard output.
#![tactic(auto)]

use scanner::{Choice, play};
use std::io;
use std::io::{Read, Write};
use std::process::ExitCode;

// One byte more than a script may have, so that a longer one is refused without being read to its end.
const MOST_READ: u64 = 32_769;

fn run(rt: &HostRuntime) -> anyhow::Result<()> {
    let mut script = Vec::new(rt.alloc());
    rt.stdin().take(MOST_READ).read_to_end(&mut script)?;
    let output = play(rt.alloc(), &script, Choice::Slots)?;
    rt.stdout().write_all(&output)?;
    Ok(())
}

// An error is told in one line here, so `main` returns a status: an `Err` would be printed once more.
fn main(rt: HostRuntime) -> io::Result<ExitCode> {
    let Err(error) = run(&rt) else {
        return Ok(ExitCode::SUCCESS);
    };
    eprintln!(rt; "player: {error}")?;
    Ok(ExitCode::FAILURE)
}

// The program: a run on the real words, input and output.
#![tactic(auto)]

use std::process::ExitCode;
use wasp2_run::run_here;

fn main(rt: HostRuntime) -> ExitCode {
    run_here(&rt)
}

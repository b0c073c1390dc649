// The stored run of an example: what is written for examples/repair.lp.
#![tactic(auto)]

use std::process::ExitCode;
use wasp2_run::run_here;

fn main(rt: HostRuntime) -> ExitCode {
    run_here(&rt)
}

// Reads a scenario file on standard input and prints the verdict on it.
#![tactic(auto)]

use search_runs::Listing;
use std::io;

fn main(rt: HostRuntime) -> io::Result<()> {
    report::print_verdict(&rt, Listing::Full)?;
    Ok(())
}

// Prints the limits from the places where they are enforced: rows, variables, roles, runs, events of a role, file bytes, trace bytes.
#![tactic(auto)]

use std::io;

fn main(rt: HostRuntime) -> io::Result<()> {
    rt.write_all(text::limits_text().as_bytes())
}

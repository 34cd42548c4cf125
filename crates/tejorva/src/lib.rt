// The functions that C calls, each one line: an operation, and its answer packed into 64 bits. Crate tejorva_c exports them.
#![tactic(auto)]

ghost use Rattle.std.specs.Prelude.{◌≡◌};
ghost use Rattle.semantics.specs.Derive.{derived};
ghost use Rattle.semantics.specs.Scenario.{opened};
ghost use Rattle.semantics.specs.Replay.{replayed};
ghost use Rattle.semantics.specs.Moves.{short};
ghost use Rattle.semantics.specs.Verdict.{searched_in, searched, buffer_in, buffer_after};
ghost use Rattle.semantics.specs.Packing.{packed_derived, packed_opened, packed_replayed, packed_searched};

use search_runs::Listing;

// Whether row `target` of a table is derivable from the listed rows.
pub fn tejorva_derive(table: &[u8], list: &[u8], target: u64) -> u64
    ensures { result ≡ packed_derived (derived table.now list.now target) }
{
    packing::derived(derive::derive(table, list, target))
}

// Whether a scenario file is accepted.
pub fn tejorva_open(file: &[u8]) -> u64
    ensures { result ≡ packed_opened (opened file.now) }
{
    packing::opened(scenario::open(file))
}

// The verdict on a scenario file, with the trace of a broken claim at the buffer's front.
pub fn tejorva_search(file: &[u8], trace: &mut [u8]) -> u64
    ensures value { result ≡ packed_searched (searched file.now trace.old) }
    ensures trace_after { trace.new ≡ buffer_after file.now trace.old }
{
    packing::verdict(search::search_in(file, trace, Listing::Full))
}

// The verdict on a scenario file by the short list, with the trace of a broken claim at the buffer's front.
pub fn tejorva_search_short(file: &[u8], trace: &mut [u8]) -> u64
    ensures value { result ≡ packed_searched (searched_in short file.now trace.old) }
    ensures trace_after { trace.new ≡ buffer_in short file.now trace.old }
{
    packing::verdict(search::search_in(file, trace, Listing::Short))
}

// Which claim a trace breaks, step by step through a scenario file.
pub fn tejorva_replay(file: &[u8], trace: &[u8]) -> u64
    ensures { result ≡ packed_replayed (replayed file.now trace.now) }
{
    packing::replayed(replay::replay(file, trace))
}

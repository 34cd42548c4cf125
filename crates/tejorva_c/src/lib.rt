// The functions of crate tejorva for C: the static library exports each under its name, with the same contract.
#![tactic(auto)]

ghost use Rattle.std.specs.Prelude.{◌≡◌};
ghost use Rattle.semantics.specs.Derive.{derived};
ghost use Rattle.semantics.specs.Scenario.{opened};
ghost use Rattle.semantics.specs.Replay.{replayed};
ghost use Rattle.semantics.specs.Moves.{short};
ghost use Rattle.semantics.specs.Verdict.{searched_in, searched, buffer_in, buffer_after};
ghost use Rattle.semantics.specs.Packing.{packed_derived, packed_opened, packed_replayed, packed_searched};

// Whether row `target` of a table is derivable from the listed rows.
#[unsafe(no_mangle)]
pub extern "C" fn tejorva_derive(table: &[u8], list: &[u8], target: u64) -> u64
    ensures { result ≡ packed_derived (derived table.now list.now target) }
{
    tejorva::tejorva_derive(table, list, target)
}

// Whether a scenario file is accepted.
#[unsafe(no_mangle)]
pub extern "C" fn tejorva_open(file: &[u8]) -> u64
    ensures { result ≡ packed_opened (opened file.now) }
{
    tejorva::tejorva_open(file)
}

// The verdict on a scenario file, with the trace of a broken claim at the buffer's front.
#[unsafe(no_mangle)]
pub extern "C" fn tejorva_search(file: &[u8], trace: &mut [u8]) -> u64
    ensures value { result ≡ packed_searched (searched file.now trace.old) }
    ensures trace_after { trace.new ≡ buffer_after file.now trace.old }
{
    tejorva::tejorva_search(file, trace)
}

// The verdict on a scenario file by the short list, with the trace of a broken claim at the buffer's front.
#[unsafe(no_mangle)]
pub extern "C" fn tejorva_search_short(file: &[u8], trace: &mut [u8]) -> u64
    ensures value { result ≡ packed_searched (searched_in short file.now trace.old) }
    ensures trace_after { trace.new ≡ buffer_in short file.now trace.old }
{
    tejorva::tejorva_search_short(file, trace)
}

// Which claim a trace breaks, step by step through a scenario file.
#[unsafe(no_mangle)]
pub extern "C" fn tejorva_replay(file: &[u8], trace: &[u8]) -> u64
    ensures { result ≡ packed_replayed (replayed file.now trace.now) }
{
    tejorva::tejorva_replay(file, trace)
}

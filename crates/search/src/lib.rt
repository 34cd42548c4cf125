// Search, by the full list or the short one: the verdict on a scenario file, with the trace of a broken claim in the lent buffer; refused as Open, or with 10.
#![tactic(auto)]

ghost use Rattle.std.specs.Prelude.{◌≡◌, ℕ, ◌<◌, ◌≤◌, length, get_or, map};
ghost use Rattle.semantics.specs.Basic.{total};
ghost use Rattle.semantics.specs.Answer.{accepted};
ghost use Rattle.semantics.specs.Verdict.{verdict, searched_in, written, buffer_in};
ghost use Rattle.answers.specs.Answers.{verdict_as, searched_as};
ghost use Rattle.runs.specs.Opened.{scenario_of, IsOpened};
ghost use Rattle.runs.specs.Runs.{no_place};
ghost use Rattle.search_runs.specs.Runs.{list_as};
ghost use Rattle.search_breaks.specs.Walk.{FindsAll};

use answers::{End, Refusal, Verdict, Walked};
use frame::BlockKind;
use runs::{Opened, RunPlace};
use search_breaks::{Course, Plan, Reach};
use search_memory::Memory;
use search_runs::Listing;
use search_walk::Parts;
use state::State;

// How many events some runs have together.
fn event_count(runs: &[RunPlace]) -> usize
    requires { (length runs.now ≤ 4) × ((k : ℕ) → k < length runs.now → (get_or runs.now k no_place).events ≤ 8) }
    ensures { (result ≡ total (map (λ p. p.events) runs.now)) × (result ≤ 32) }
{
    // stays: `sum()` leaves its bound unproved
    let mut sum = 0;
    for run in runs {
        sum += run.events;
    }
    sum
}

// Walks through a whole list of an accepted file, with a memory that is empty at first.
fn walk_all(trace: &mut [u8], opened: &Opened, left: usize, list: Listing) -> Walked
    requires { IsOpened opened.now × ((128 ≤ length trace.old) × (left < 4294967296)) }
    ensures { FindsAll (list_as list) (scenario_of opened.now) left trace.old trace.new result }
{
    let s = State::initial(
        opened,
        frame::part_of(opened.file, BlockKind::Knowledge).bytes,
    );
    let runs = &opened.runs.runs[..opened.runs.count];
    let done = [State::NONE_DONE; 4];
    let variables = search_memory::variable_rows(&opened.table);
    let mut memory = [0; Memory::WORDS];
    search_walk::walk(
        trace,
        &mut memory,
        &Plan {
            list,
            opened: *opened,
            variables,
        },
        &Parts {
            course: Course { done },
            names: &s.names,
            classes: &s.classes,
            marks: s.marks,
        },
        Reach {
            left,
            at: 0,
            depth: event_count(runs),
        },
    )
}

// The verdict on an accepted file by a list. Without a budget no memory is cleared.
fn judged(opened: &Opened, trace: &mut [u8], list: Listing) -> Verdict
    requires { IsOpened opened.now × (128 ≤ length trace.old) }
    ensures value { result ≡ verdict_as (verdict (list_as list) (scenario_of opened.now)) }
    ensures trace_after { trace.new ≡ written trace.old (accepted (verdict (list_as list) (scenario_of opened.now))) }
{
    let budget = frame::budget(opened.file);
    if budget == 0 {
        return answers::verdict_of(Err(End::Cut), budget);
    }
    let walked = walk_all(trace, opened, budget, list);
    answers::verdict_of(walked, budget)
}

// "Search refuses as Open, then 10 if the trace buffer is shorter than 128 bytes, place its length.", by a list.
pub fn search_in(file: &[u8], trace: &mut [u8], list: Listing) -> Result<Verdict, Refusal>
    ensures value { result ≡ searched_as (searched_in (list_as list) file.now trace.old) }
    ensures trace_after { trace.new ≡ buffer_in (list_as list) file.now trace.old }
{
    let layout = scenario::open(file)?;
    answers::check_buffer(&trace[..])?;
    Ok(judged(&Opened::of(file, layout), trace, list))
}

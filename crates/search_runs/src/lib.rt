// Search: which list of traces is walked through, and the runs whose moves it goes on with from a state.
#![tactic(auto)]

ghost use Rattle.std.specs.Prelude.{◌<◌, MatchOption};
ghost use Rattle.search_runs.specs.Runs.{TellsReady, NoneReady, LowestReady, GoesOn};

use records::EventKind;
use runs::Opened;
use std::ops::Range;

// Which list: all allowed traces; or, wherever some run's next event is a send or claim, only those that go on with the lowest such run.
#[derive(Clone, Copy)]
pub enum Listing {
    Full,
    Short,
}

// Whether the next event of run k is a send or claim.
fn is_ready(opened: &Opened, done: [usize; 4], k: usize) -> bool
    requires { k < opened.now.runs.count }
    ensures { TellsReady opened.now done k result }
{
    match opened.next_event(k, done[k]) {
        Some(e) => e.kind != EventKind::Read,
        None => false,
    }
}

// The lowest run whose next event is a send or claim, if there is one.
fn lowest_ready(opened: &Opened, done: [usize; 4]) -> Option<usize>
    ensures { MatchOption result (NoneReady opened.now done) (LowestReady opened.now done) }
{
    (0..opened.runs.count).find(|&k| is_ready(opened, done, k))
}

// The runs whose moves a list goes on with, from 0.
pub fn runs_in(list: Listing, opened: &Opened, done: [usize; 4]) -> Range<usize>
    ensures { GoesOn opened.now done list result }
{
    match list {
        Listing::Full => 0..opened.runs.count,
        Listing::Short => match lowest_ready(opened, done) {
            Some(k) => k..k + 1,
            None => 0..opened.runs.count,
        },
    }
}

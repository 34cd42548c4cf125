// What the programs print, as bytes: Search's answer with its trace, and the limits.
#![tactic(auto)]

ghost use Rattle.std.specs.Prelude.{Ok, ◌≡◌, List, [], ◌++◌, ◌+◌, ◌*◌, ◌<◌, ◌≤◌, length};
ghost use Rattle.semantics.specs.Basic.{joined};
ghost use Rattle.semantics.specs.Answer.{Answer};
ghost use Rattle.semantics.specs.State.{Value};
ghost use Rattle.semantics.specs.Moves.{Move};
ghost use Rattle.semantics.specs.Verdict as verdicts;
ghost use Rattle.semantics.specs.Verdict.{value_bytes, trace_bytes};
ghost use Rattle.answers.specs.Answers.{number_of};
ghost use Rattle.text.specs.Text.{decimal, value_text, line_text, step_text, refused_text, broken_text, verdict_text, limits_text, Shown};

use answers::{Break, Refusal, Trace, Verdict};
use frame::File;
use records::Limits;
use std::marker::Model;
use table::TableLimits;

// A text of at most 1024 bytes, which a contract sees as the list of its bytes.
// stays: `Display` writes through a formatter, which may fail, and str; here nothing fails, and each contract is an equation of bytes
#[derive(Drop)]
pub struct Text {
    bytes: [u8; 1024],
    len: usize,
}

impl Model for Text {
    ghost use Rattle.std.specs.Prelude.{ℕ, ◌≤◌, List, take};

    ghost Value = { List ℕ };

    ghost view = { λ t. take t.len t.bytes };

    ghost invariant = { λ t. t.len ≤ 1024 };
}

impl Text {
    // An empty text.
    fn new() -> Self
        ensures { result ≡ [] }
    {
        Text {
            bytes: [0; 1024],
            len: 0,
        }
    }

    // The text's bytes.
    pub fn as_bytes(&self) -> &[u8]
        ensures { result.now ≡ self.now }
    {
        &self.bytes[..self.len]
    }

    // Adds a word.
    fn push_word(&mut self, word: &[u8])
        requires { length self.old + length word.now ≤ 1024 }
        ensures { self.new ≡ self.old ++ word.now }
    {
        let end = self.len + word.len();
        self.bytes[self.len..end].copy_from_slice(word);
        self.len = end;
    }

    // Adds a number.
    fn push_number(&mut self, n: usize)
        requires { length self.old + length (decimal n) ≤ 1024 }
        ensures { self.new ≡ self.old ++ decimal n }
    {
        if n >= 10 {
            self.push_number(n / 10);
        }
        self.push_word(&[b'0' + (n % 10) as u8]);
    }

    // Adds a word and a number.
    fn push_with(&mut self, word: &[u8], n: usize)
        requires { length self.old + length word.now + 20 ≤ 1024 }
        ensures text { self.new ≡ self.old ++ (word.now ++ decimal n) }
        ensures len_bound { length self.new ≤ length self.old + length word.now + 20 }
    {
        self.push_word(word);
        self.push_number(n);
    }

    // Adds a number and the end of its line.
    fn push_line(&mut self, n: usize)
        requires { length self.old + 21 ≤ 1024 }
        ensures text { self.new ≡ self.old ++ line_text n }
        ensures len_bound { length self.new ≤ length self.old + 21 }
    {
        self.push_number(n);
        self.push_word(b"\n");
    }

    // Adds the new values of a step, each as row.run.
    fn push_values(&mut self, values: &[u8])
        requires { length self.old + 4 * length values.now ≤ 1000 }
        ensures len_bound { length self.new ≤ length self.old + 4 * length values.now }
        ensures text { (vs : List Value) → values.now ≡ value_bytes vs → self.new ≡ self.old ++ joined value_text vs }
    {
        for pair in values.chunks_exact(2) {
            self.push_with(b" ", usize::from(pair[0]));
            self.push_with(b".", usize::from(pair[1]));
        }
    }

    // Adds a step: a run and its new values, on a line.
    fn push_step(&mut self, run: usize, values: &[u8])
        requires { (run < 256) × (length self.old + 9 + 4 * length values.now ≤ 1000) }
        ensures len_bound { length self.new ≤ length self.old + 9 + 4 * length values.now }
        ensures text { (m : Move) → run ≡ m.run → values.now ≡ value_bytes m.values → self.new ≡ self.old ++ step_text m }
    {
        self.push_with(b"STEP ", run);
        self.push_values(values);
        self.push_word(b"\n");
    }

    // Adds the steps of a trace.
    fn push_steps(&mut self, trace: &[u8])
        requires { ((ms : List Move) × (trace.now ≡ trace_bytes ms)) × (length self.old + 5 * length trace.now ≤ 1000) }
        ensures { (ms : List Move) → trace.now ≡ trace_bytes ms → self.new ≡ self.old ++ joined step_text ms }
    {
        if trace.is_empty() {
            return;
        }
        let end = 2 + 2 * usize::from(trace[1]);
        self.push_step(usize::from(trace[0]), &trace[2..end]);
        self.push_steps(&trace[end..]);
    }
}

// The text of a refusal with any number, a reason's or not.
#[tactic(auto, unfolding(crate::specs::Text::refused_text))]
pub fn refusal_text(number: usize, place: usize) -> Text
    ensures { result ≡ refused_text number place }
{
    let mut text = Text::new();
    text.push_with(b"REFUSED ", number);
    text.push_word(b" ");
    text.push_line(place);
    text
}

// The text of a refusal.
fn refused(r: Refusal) -> Text
    ensures { result ≡ refused_text (number_of r.reason) r.place }
{
    refusal_text(usize::from(r.reason), r.place)
}

// The text of a break, with its trace.
#[tactic(auto, unfolding(crate::specs::Text::broken_text))]
fn broken(b: Break, trace: &[u8]) -> Text
    requires { ((ms : List Move) × (trace.now ≡ trace_bytes ms)) × (length trace.now ≤ 128) }
    ensures { (ms : List Move) → trace.now ≡ trace_bytes ms → result ≡ broken_text b.place b.claim.run b.claim.event ms }
{
    let claim = b.claim;
    let mut text = Text::new();
    text.push_with(b"BROKEN ", b.place);
    text.push_with(b" RUN ", claim.run);
    text.push_with(b" EVENT ", claim.event);
    text.push_word(b"\n");
    text.push_steps(trace);
    text
}

// A text of a word and a number on one line.
fn counted(word: &[u8], n: usize) -> Text
    requires { length word.now ≤ 1000 }
    ensures { result ≡ word.now ++ line_text n }
{
    let mut text = Text::new();
    text.push_word(word);
    text.push_line(n);
    text
}

// The text of what Search finds, whose trace, if it is BROKEN, stands at the front of a buffer.
fn found_text(verdict: Verdict, trace: &[u8]) -> Text
    requires { (a : Answer verdicts.Verdict) × Shown a (Ok verdict) trace.now }
    ensures { (a : Answer verdicts.Verdict) → Shown a (Ok verdict) trace.now → result ≡ verdict_text a }
{
    match verdict {
        Verdict::Broken(b) => {
            let end = b.length;
            broken(b, &trace[..end])
        }
        Verdict::Held(n) => counted(b"HELD ", n),
        Verdict::Stopped(n) => counted(b"STOPPED ", n),
    }
}

// The text of Search's answer, whose trace, if it is BROKEN, stands at the front of a buffer.
pub fn answer_text(answer: Result<Verdict, Refusal>, trace: &[u8]) -> Text
    requires { (a : Answer verdicts.Verdict) × Shown a answer trace.now }
    ensures { (a : Answer verdicts.Verdict) → Shown a answer trace.now → result ≡ verdict_text a }
{
    match answer {
        Err(r) => refused(r),
        Ok(verdict) => found_text(verdict, trace),
    }
}

// "prints the limits of this paper from the place where they are enforced, one a line"
#[tactic(auto, unfolding(crate::specs::Text::limits_text))]
pub fn limits_text() -> Text
    ensures { result ≡ limits_text }
{
    let mut text = Text::new();
    text.push_line(TableLimits::MOST_ROWS);
    text.push_line(TableLimits::MOST_VARIABLES);
    text.push_line(TableLimits::MOST_ROLES);
    text.push_line(Limits::MOST_RUNS);
    text.push_line(Limits::MOST_EVENTS);
    text.push_line(File::MOST_BYTES);
    text.push_line(Trace::MOST_BYTES);
    text
}

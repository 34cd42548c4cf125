// What the operations answer, by value, and the last steps to Search's answer: refusal 10, and the verdict by what the walk found.
#![tactic(auto)]

ghost use Rattle.std.specs.Prelude.{◌≡◌};
ghost use Rattle.semantics.specs.Answer.{checked};
ghost use Rattle.semantics.specs.Verdict.{short_buffer};
ghost use Rattle.answers.specs.Answers.{number_of, claim_number, refused_at, checked_as, answered};

// Why a call is refused, in the order of the refusals' numbers, which begin with 1.
#[derive(Clone, Copy, PartialEq, Eq)]
pub enum Reason {
    Version = 1,
    Size,
    Framing,
    Row,
    RepeatedRow,
    Role,
    Event,
    Run,
    Knowledge,
    Buffer,
    AbsentRow,
    Step,
}

impl Reason {
    // A check for this reason: refused where there is a place.
    pub fn at(self, place: Option<usize>) -> Result<(), Refusal>
        ensures { result ≡ refused_at self place }
    {
        match place {
            Some(place) => Err(Refusal {
                reason: self,
                place,
            }),
            None => Ok(()),
        }
    }
}

// The number that C gets and that is printed.
impl From<Reason> for usize {
    fn from(reason: Reason) -> usize
        ensures { result ≡ number_of reason }
    {
        reason as usize
    }
}

// "A refusal is a number and a place, the offset of the item's first byte"
#[derive(Clone, Copy)]
pub struct Refusal {
    pub reason: Reason,
    pub place: usize,
}

// A block of an accepted file: where its bytes begin, and how many rows, roles, runs or knowledge rows it has.
#[derive(Clone, Copy)]
pub struct Block {
    pub start: usize,
    pub count: usize,
}

// Where the parts of an accepted file stand.
#[derive(Clone, Copy)]
pub struct Layout {
    pub budget: usize,
    pub terms: Block,
    pub roles: Block,
    pub runs: Block,
    pub knowledge: Block,
}

// The kind of a claim, by the number that C gets.
#[derive(Clone, Copy)]
pub enum ClaimKind {
    Secrecy = 2,
}

impl From<ClaimKind> for u64 {
    fn from(kind: ClaimKind) -> u64
        ensures { result ≡ claim_number kind }
    {
        kind as u64
    }
}

// A claim: its run, from 1, its event, from 0, and its kind.
#[derive(Clone, Copy)]
pub struct Claim {
    pub run: usize,
    pub event: usize,
    pub kind: ClaimKind,
}

// A break: its place in the list, the length of its trace in bytes, and the claim.
#[derive(Clone, Copy)]
pub struct Break {
    pub place: usize,
    pub length: usize,
    pub claim: Claim,
}

// What Search finds: a break, the list's length, or the budget.
#[derive(Clone, Copy)]
pub enum Verdict {
    Broken(Break),
    Held(usize),
    Stopped(usize),
}

// What ends a walk: a break, or the budget.
#[derive(Clone, Copy)]
pub enum End {
    Broken(Break),
    Cut,
}

// What a walk through a part of the list finds: so many traces without a break, or what ended it.
pub type Walked = Result<usize, End>;

// The limit of a trace.
#[derive(Drop)]
pub struct Trace {}

impl Trace {
    pub const MOST_BYTES: usize = 128;
}

// "10 if the trace buffer is shorter than 128 bytes, place its length"
#[tactic(auto, unfolding(semantics::specs::Verdict::short_buffer))]
pub fn check_buffer(trace: &[u8]) -> Result<(), Refusal>
    ensures { result ≡ checked_as (checked 10 (short_buffer trace.now)) }
{
    Reason::Buffer.at((trace.len() < Trace::MOST_BYTES).then_some(trace.len()))
}

// The verdict by what the walk through the whole list found with a budget.
pub fn verdict_of(walked: Walked, budget: usize) -> Verdict
    ensures { result ≡ answered budget walked }
{
    match walked {
        Ok(m) => Verdict::Held(m),
        Err(End::Broken(b)) => Verdict::Broken(b),
        Err(End::Cut) => Verdict::Stopped(budget),
    }
}

// The packing of each operation's answer into 64 bits, as C gets it.
#![tactic(auto)]

ghost use Rattle.std.specs.Prelude.{◌≡◌, ◌<◌};
ghost use Rattle.semantics.specs.Packing.{word_alone, packed_refusal, packed_number, claim_bits};
ghost use Rattle.packing.specs.Packing.{word_of, packed_refused, packed_deriving, packed_opening, packed_code_kind, packed_code_claim, packed_replaying, packed_code_break, packed_searching};

use answers::{Break, Claim, Layout, Refusal, Verdict};

// The words, one for each kind of answer; a refusal's is 0.
#[derive(Clone, Copy)]
enum Word {
    // Search's
    Held = 1,
    Stopped,
    Broken,
    // Open's
    Accepted,
    // Derive's
    Derivable,
    NotDerivable,
    // Replay's
    Claim,
    NoClaim,
}

impl From<Word> for u64 {
    fn from(word: Word) -> u64
        ensures { result ≡ word_of word }
    {
        word as u64
    }
}

// Where each part of the number begins, as what a 1 there is worth. Places and counts begin at bit 0.
const WORD_BIT: u64 = 1 << 60;

const NUMBER_BIT: u64 = 1 << 52;

const LENGTH_BIT: u64 = 1 << 44;

const KIND_BIT: u64 = 1 << 40;

const EVENT_BIT: u64 = 1 << 36;

const RUN_BIT: u64 = 1 << 32;

// The largest value of each part; of run and event alike.
const MOST_NUMBER: u64 = 255;

const MOST_PLACE: u64 = NUMBER_BIT - 1;

const MOST_LENGTH: u64 = 511;

const MOST_INDEX: u64 = 15;

const MOST_COUNT: u64 = RUN_BIT - 1;

// A word and nothing with it.
fn word_alone(word: Word) -> u64
    ensures { result ≡ word_alone (word_of word) }
{
    u64::from(word) * WORD_BIT
}

// A word with a number.
fn with_count(word: Word, n: usize) -> u64
    ensures { result ≡ packed_number (word_of word) n }
{
    word_alone(word) + (n as u64).min(MOST_COUNT)
}

// A refusal with any number, a reason's or not, and its place.
pub fn refusal_bits(number: usize, place: usize) -> u64
    ensures { result ≡ packed_refusal number place }
{
    (number as u64).min(MOST_NUMBER) * NUMBER_BIT + (place as u64).min(MOST_PLACE)
}

// A refusal: number and place.
fn refusal(r: Refusal) -> u64
    ensures { result ≡ packed_refused r }
{
    refusal_bits(usize::from(r.reason), r.place)
}

// What says a claim, below the word: run, event and kind.
fn claim_bits(c: Claim) -> u64
    ensures { (result ≡ claim_bits c.run c.event (packed_code_kind c.kind)) × (result < 17592186044416) }
{
    u64::from(c.kind) * KIND_BIT
        + (c.event as u64).min(MOST_INDEX) * EVENT_BIT
        + (c.run as u64).min(MOST_INDEX) * RUN_BIT
}

// A claim: run, event and kind.
fn claim(c: Claim) -> u64
    ensures { result ≡ packed_code_claim c }
{
    word_alone(Word::Claim) + claim_bits(c)
}

// A break: list place, trace length, and its claim.
fn broken(b: Break) -> u64
    ensures { result ≡ packed_code_break b }
{
    with_count(Word::Broken, b.place)
        + (b.length as u64).min(MOST_LENGTH) * LENGTH_BIT
        + claim_bits(b.claim)
}

// Derive's answer as one number.
pub fn derived(answer: Result<bool, Refusal>) -> u64
    ensures { result ≡ packed_deriving answer }
{
    match answer {
        Err(r) => refusal(r),
        Ok(true) => word_alone(Word::Derivable),
        Ok(false) => word_alone(Word::NotDerivable),
    }
}

// Open's answer as one number.
pub fn opened(answer: Result<Layout, Refusal>) -> u64
    ensures { result ≡ packed_opening answer }
{
    match answer {
        Err(r) => refusal(r),
        Ok(_) => word_alone(Word::Accepted),
    }
}

// Replay's answer as one number.
pub fn replayed(answer: Result<Option<Claim>, Refusal>) -> u64
    ensures { result ≡ packed_replaying answer }
{
    match answer {
        Err(r) => refusal(r),
        Ok(Some(c)) => claim(c),
        Ok(None) => word_alone(Word::NoClaim),
    }
}

// Search's answer as one number.
pub fn verdict(answer: Result<Verdict, Refusal>) -> u64
    ensures { result ≡ packed_searching answer }
{
    match answer {
        Err(r) => refusal(r),
        Ok(Verdict::Broken(b)) => broken(b),
        Ok(Verdict::Held(n)) => with_count(Word::Held, n),
        Ok(Verdict::Stopped(n)) => with_count(Word::Stopped, n),
    }
}

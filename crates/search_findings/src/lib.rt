// What a walk through a part of the list finds, and what that becomes in the whole: breaks, counts and the budget. Decisions on plain data alone.
#![tactic(auto)]

ghost use Rattle.std.specs.Prelude.{◌≡◌, ◌<◌, ◌≤◌};
ghost use Rattle.search_findings.specs.Findings.{own_break, placed_later, made_longer, own_as, known_as, behind_as, after_step, size_of, length_of};

use answers::{Break, Claim, End, Walked};

// The break of the first trace of a list, which has no bytes.
pub fn own_break(claim: Claim) -> Break
    ensures { result ≡ own_break claim }
{
    Break {
        place: 1,
        length: 0,
        claim,
    }
}

// A break that stands so many places later.
pub fn later(b: Break, count: usize) -> Break
    requires { (b.place < 4294967296) × (count < 4294967296) }
    ensures { result ≡ placed_later b count }
{
    Break {
        place: count + b.place,
        ..b
    }
}

// A break whose trace begins with so many bytes more.
pub fn longer(b: Break, bytes: usize) -> Break
    requires { (b.length ≤ 512) × (bytes ≤ 18) }
    ensures { result ≡ made_longer b bytes }
{
    Break {
        length: bytes + b.length,
        ..b
    }
}

// What a state's own trace comes to: nothing where the budget is at its end, the break of its claim, or one trace without a break.
pub fn own(left: usize, claimed: Option<Claim>) -> Walked
    ensures { result ≡ own_as left claimed }
{
    if left == 0 {
        return Err(End::Cut);
    }
    match claimed {
        Some(claim) => Err(End::Broken(own_break(claim))),
        None => Ok(1),
    }
}

// What a remembered number of traces without a break comes to with what is left of the budget.
pub fn known(left: usize, count: usize) -> Walked
    ensures { result ≡ known_as left count }
{
    if left < count {
        return Err(End::Cut);
    }
    Ok(count)
}

// What is found in a part of the list, behind so many traces without a break.
pub fn behind(count: usize, found: Walked) -> Walked
    requires { (count < 4294967296) × (size_of found < 4294967296) }
    ensures { result ≡ behind_as count found }
{
    match found {
        Ok(m) => Ok(count + m),
        Err(End::Broken(b)) => Err(End::Broken(later(b, count))),
        Err(End::Cut) => Err(End::Cut),
    }
}

// What is found after a move, its step of so many bytes put in front.
pub fn after_step(found: Walked, bytes: usize) -> Walked
    requires { (length_of found ≤ 512) × (bytes ≤ 18) }
    ensures { result ≡ after_step found bytes }
{
    match found {
        Err(End::Broken(b)) => Err(End::Broken(longer(b, bytes))),
        _ => found,
    }
}

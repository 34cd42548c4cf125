// Replay: a trace followed step by step; refused as Open, refused with 12 at a step, the claim broken, or none.
#![tactic(auto)]

ghost use Rattle.std.specs.Prelude.{◌≡◌};
ghost use Rattle.semantics.specs.Replay.{replayed};
ghost use Rattle.answers.specs.Answers.{replayed_as};
ghost use Rattle.runs.specs.Opened.{scenario_of, IsOpened};
ghost use Rattle.replay.specs.Replay.{followed_of};

use answers::{Claim, Reason, Refusal};
use frame::BlockKind;
use runs::Opened;
use state::State;

// A trace followed through an accepted file: refused with 12 at a step, the claim broken, or none.
fn followed(opened: &Opened, trace: &[u8]) -> Result<Option<Claim>, Refusal>
    requires { IsOpened opened.now }
    ensures { result ≡ replayed_as (followed_of (scenario_of opened.now) trace.now) }
{
    let mut s = State::initial(
        opened,
        frame::part_of(opened.file, BlockKind::Knowledge).bytes,
    );
    let mut at = 0;
    // stays: how long a step is, is known only once it is found allowed in the state before it
    while at < trace.len() {
        let stepped = replay_steps::step(opened, s, &trace[at..]).ok_or(Refusal {
            reason: Reason::Step,
            place: at,
        })?;
        s = stepped.state;
        at += stepped.length;
    }
    Ok(claims::broken(opened, s.done, s.marks))
}

// "Replay refuses as Open, then 12 .. Otherwise it gives the claim broken, or none."
pub fn replay(file: &[u8], trace: &[u8]) -> Result<Option<Claim>, Refusal>
    ensures { result ≡ replayed_as (replayed file.now trace.now) }
{
    let layout = scenario::open(file)?;
    followed(&Opened::of(file, layout), trace)
}

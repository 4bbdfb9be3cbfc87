// The whole opening: turns of the prover and the verifier, on tables that are folded in place.
#![tactic(auto)]

ghost use Rattle.std.specs.Prelude.{◌≡◌, Ok};
ghost use Rattle.protocol.specs.Answers.{as_opened};
ghost use Rattle.protocol.specs.Basic.{Provided};
ghost use Rattle.protocol.specs.Calls.{opening_refusal};
ghost use Rattle.protocol.specs.Promises.{Opening};

use opening_turns::State;
use protocol::{Item, Outcome, ROWS_WIDTH, Refusal, Residue, Settings};
use residues::elements;

// The commitment, the round elements, the final element and the verdict, for whoever has tested what `open` tests. Both tables stay as all folds leave them.
// It is safe for every input.
pub fn opened(
    settings: Settings,
    key: &mut [Residue],
    message: &mut [i32],
    challenges: &[u32],
    rounds: &mut [Residue],
) -> Outcome
    ensures { Provided (opening_refusal settings key.old message.old challenges.now rounds.old ≡ 0)
        (Opening settings key.old message.old challenges.now rounds.old (as_opened (Ok result)) key.new message.new rounds.new) }
{
    let mut claims: Item = [0; ROWS_WIDTH];
    opening_rounds::begin(settings, key, message, &mut claims, rounds);
    let commitment = prover::by_value(settings, &claims);
    let begun = State {
        done: 0,
        holds: true,
    };
    let ended = opening_turns::prover_turn(
        settings,
        begun,
        &mut claims,
        key,
        message,
        challenges,
        rounds,
    );
    let last = elements::element_at(settings.degree, message, 0);
    let verdict = opening_checks::verdict(settings, ended.holds, &claims, &last, key);
    Outcome {
        commitment,
        last,
        verdict,
    }
}

// The same as a call.
pub fn open(
    settings: Settings,
    key: &mut [Residue],
    message: &mut [i32],
    challenges: &[u32],
    rounds: &mut [Residue],
) -> Result<Outcome, Refusal>
    ensures { Opening settings key.old message.old challenges.now rounds.old (as_opened result) key.new message.new rounds.new }
{
    prover_refusals::opening::open(settings, key, message, challenges, rounds)?;
    Ok(opened(settings, key, message, challenges, rounds))
}

// The turns of a whole opening (PROTOCOL 2.6, 8.7): prover and verifier call each other, once each in every round. The round polynomial of every row stands in
// its place of the table of rounds, and the claims in a lent slice, an element for each row: a turn copies no element.
#![tactic(auto)]

mod storage;

ghost use Rattle.std.specs.Prelude.{◌<◌};
ghost use Rattle.opening_turns.specs.Turns.{ProverMove, VerifierMove, ProverTurn, VerifierTurn};

use protocol::{Residue, Settings};

// Where an opening stands: the rounds done, and whether every round so far held.
#[derive(Clone, Copy)]
pub struct State {
    pub done: u32,
    pub holds: bool,
}

// The prover's move in round t + 1, whose c0 stands in its place: in every row c1 and c2 follow from the claim and one inner product. With them the round polynomial stands
// there. It folds both tables by X^e, and puts c0 of the next round in its place, where there is one.
fn prove_round(
    settings: Settings,
    t: u32,
    e: u32,
    claims: &[Residue],
    key: &mut [Residue],
    message: &mut [i32],
    rounds: &mut [Residue],
)
    requires { t < settings.depth }
    ensures { ProverMove settings t e claims.now key.old message.old rounds.old key.new message.new rounds.new }
{
    storage::write_rest(settings, t, key, message, claims, rounds);
    prover::fold_tables(settings, t, e, key, message);
    storage::write_first(settings, t + 1, key, message, rounds);
}

// The verifier's move: the round's equations, and the next claims.
fn check_round(
    settings: Settings,
    state: State,
    e: u32,
    claims: &mut [Residue],
    rounds: &[Residue],
) -> State
    requires { state.done < settings.depth }
    ensures { VerifierMove settings state e claims.old rounds.now result claims.new }
{
    let t = state.done;
    let met = opening_checks::check_rows(settings, t, e, claims, rounds);
    State {
        done: t + 1,
        holds: state.holds & met,
    }
}

// The prover's turn and all that follow: while a round is left it makes its move and hands on.
#[cycle(prover_turn_verifier_turn)]
pub fn prover_turn(
    settings: Settings,
    state: State,
    claims: &mut [Residue],
    key: &mut [Residue],
    message: &mut [i32],
    challenges: &[u32],
    rounds: &mut [Residue],
) -> State
    ensures { ProverTurn settings challenges.now state claims.old key.old message.old rounds.old result
        claims.new key.new message.new rounds.new }
{
    let t = state.done;
    if t >= settings.depth {
        return state;
    }
    let e = challenges.get(t as usize).copied().unwrap_or(0);
    prove_round(settings, t, e, claims, key, message, rounds);
    verifier_turn(settings, state, e, claims, key, message, challenges, rounds)
}

// The verifier's turn: it makes its move and hands back. What it found goes on to the end, since both tables are folded by all challenges.
#[cycle(prover_turn_verifier_turn)]
fn verifier_turn(
    settings: Settings,
    state: State,
    e: u32,
    claims: &mut [Residue],
    key: &mut [Residue],
    message: &mut [i32],
    challenges: &[u32],
    rounds: &mut [Residue],
) -> State
    requires { state.done < settings.depth }
    ensures { VerifierTurn settings challenges.now state claims.old key.old message.old rounds.old result
        claims.new key.new message.new rounds.new e }
{
    let next = check_round(settings, state, e, claims, rounds);
    prover_turn(settings, next, claims, key, message, challenges, rounds)
}

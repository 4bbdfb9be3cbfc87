// The verifier's calls. Each function reads a case's inputs, makes its call and prints what it gives.
use crate::input::Input;
use crate::{ROOM, output};
use protocol::{Handed, ROWS_WIDTH, Session, Settings, Verdict};
use verifier::Verifier;

// A record whose every field differs from what a start gives: a start must not look at the record before it.
fn used() -> Session {
    Session {
        settings: Settings {
            degree: 1,
            depth: 9,
            modulus: 2,
            bound: 128,
            rows: 5,
        },
        done: 9,
        claims: [7u64; ROWS_WIDTH],
        challenges: [5u32; 8],
        closed: true,
    }
}

pub fn start(rt: &impl Print, input: &mut Input) {
    let settings = input.settings();
    let commitment = input.item();
    let handed = Verifier(used()).start(settings, commitment);
    output::refusal(rt, handed.said);
    output::session(rt, handed.next);
    output::end(rt);
}

fn moved(rt: &impl Print, handed: Handed<Verdict, Session>) {
    output::refusal(rt, handed.said);
    output::verdict(rt, handed.said);
    output::session(rt, handed.next);
    output::end(rt);
}

pub fn round(rt: &impl Print, input: &mut Input) {
    let session = input.session();
    let polynomial = [input.item(), input.item(), input.item()];
    let e = input.given();
    moved(rt, Verifier(session).round(polynomial, e));
}

pub fn end(rt: &impl Print, input: &mut Input) {
    let session = input.session();
    let last = input.element();
    let mut key_room = [0u64; ROOM];
    let key = input.table(&mut key_room);
    moved(rt, Verifier(session).end(last, key));
}

pub fn check(rt: &impl Print, input: &mut Input) {
    let settings = input.settings();
    let commitment = input.item();
    let last = input.element();
    let mut key_room = [0u64; ROOM];
    let key = input.table(&mut key_room);
    let mut round_room = [0u64; ROOM];
    let rounds = input.table(&mut round_room);
    let mut challenge_room = [0u32; ROOM];
    let challenges = input.table(&mut challenge_room);
    let answer = transcripts::check(settings, commitment, last, key, rounds, challenges);
    output::refusal(rt, answer);
    output::verdict(rt, answer);
    output::end(rt);
}

// The prover's calls. Each function reads a case's inputs, makes its call and prints what it gives.
use crate::input::Input;
use crate::{ROOM, output};
use protocol::{Outcome, ROWS_WIDTH, Refusal, WIDTH};

pub fn commit(rt: &impl Print, input: &mut Input) {
    let settings = input.settings();
    let mut key_room = [0u64; ROOM];
    let key = input.table(&mut key_room);
    let mut message_room = [0i32; ROOM];
    let message = input.table(&mut message_room);
    let answer = prover::commit(settings, key, message);
    output::refusal(rt, answer);
    output::item(rt, &answer.unwrap_or([0; ROWS_WIDTH]));
    output::end(rt);
}

pub fn round(rt: &impl Print, input: &mut Input) {
    let settings = input.settings();
    let t = input.given();
    let mut key_room = [0u64; ROOM];
    let key = input.table(&mut key_room);
    let mut message_room = [0i32; ROOM];
    let message = input.table(&mut message_room);
    let answer = prover::round(settings, t, key, message);
    output::refusal(rt, answer);
    for c in &answer.unwrap_or([[0; ROWS_WIDTH]; 3]) {
        output::item(rt, c);
    }
    output::end(rt);
}

pub fn fold(rt: &impl Print, input: &mut Input) {
    let settings = input.settings();
    let t = input.given();
    let e = input.given();
    let mut key_room = [0u64; ROOM];
    let key = input.table(&mut key_room);
    let mut message_room = [0i32; ROOM];
    let message = input.table(&mut message_room);
    output::refusal(rt, prover::fold(settings, t, e, key, message));
    output::table(rt, key);
    output::table(rt, message);
    output::end(rt);
}

pub fn end(rt: &impl Print, input: &mut Input) {
    let settings = input.settings();
    let t = input.given();
    let mut message_room = [0i32; ROOM];
    let message = input.table(&mut message_room);
    let answer = prover::end(settings, t, message);
    output::refusal(rt, answer);
    output::element(rt, &answer.unwrap_or([0; WIDTH]));
    output::end(rt);
}

pub fn opening(rt: &impl Print, input: &mut Input) {
    let settings = input.settings();
    let mut key_room = [0u64; ROOM];
    let key = input.table(&mut key_room);
    let mut message_room = [0i32; ROOM];
    let message = input.table(&mut message_room);
    let mut challenge_room = [0u32; ROOM];
    let challenges = input.table(&mut challenge_room);
    let mut round_room = [0u64; ROOM];
    let rounds = input.table(&mut round_room);
    let answer = opening::open(settings, key, message, challenges, rounds);
    output::refusal(rt, answer);
    output::verdict(rt, answer.map(|outcome| outcome.verdict));
    match answer {
        Ok(outcome) => {
            output::item(rt, &outcome.commitment);
            output::element(rt, &outcome.last);
        }
        Err(_) => {
            output::item(rt, &[0; ROWS_WIDTH]);
            output::element(rt, &[0; WIDTH]);
        }
    }
    output::table(rt, key);
    output::table(rt, message);
    output::table(rt, rounds);
    output::end(rt);
}

// The judge of relaxed openings and the extractor. Each function reads a case's inputs, makes its call and prints what it gives.
use crate::input::Input;
use crate::{ROOM, VECTOR_ROOM, output};

pub fn judge(rt: &impl Print, input: &mut Input) {
    let settings = input.settings();
    let commitment = input.item();
    let slack = input.given();
    let mut key_room = [0u64; ROOM];
    let key = input.table(&mut key_room);
    let mut vector_room = [0i64; VECTOR_ROOM];
    let w = input.table(&mut vector_room);
    let answer = judge::judge(settings, commitment, slack, key, w);
    output::refusal(rt, answer);
    output::flag(rt, answer.unwrap_or(false));
    output::end(rt);
}

pub fn extract(rt: &impl Print, input: &mut Input) {
    let settings = input.settings();
    let commitment = input.item();
    let mut key_room = [0u64; ROOM];
    let key = input.table(&mut key_room);
    let mut round_room = [0u64; ROOM];
    let rounds = input.table(&mut round_room);
    let mut challenge_room = [0u32; ROOM];
    let challenges = input.table(&mut challenge_room);
    let mut leaf_room = [0i32; ROOM];
    let leaves = input.table(&mut leaf_room);
    let mut vector_room = [0i64; VECTOR_ROOM];
    let w = input.table(&mut vector_room);
    let answer = extraction::extract(settings, commitment, key, rounds, challenges, leaves, w);
    output::refusal(rt, answer);
    output::table(rt, w);
    output::end(rt);
}

// The calls on texts: the table reader, the table writer, and `verify`. Each function reads a case's inputs, makes its call and prints what it gives.
use crate::input::Input;
use crate::{ROOM, TEXT_ROOM, output};
use protocol::Settings;
use text_parts::{Tables, TablesMut};

// The reader's answer where the text is refused.
const NO_SETTINGS: Settings = Settings {
    degree: 0,
    depth: 0,
    modulus: 0,
    bound: 0,
    rows: 0,
};

pub fn read(rt: &impl Print, input: &mut Input) {
    let parts = input.parts();
    let mut text_room = [0u8; TEXT_ROOM];
    let text = input.text(&mut text_room);
    let mut key_room = [0u64; ROOM];
    let key = input.table(&mut key_room);
    let mut message_room = [0i32; ROOM];
    let message = input.table(&mut message_room);
    let mut commitment_room = [0u64; ROOM];
    let commitment = input.table(&mut commitment_room);
    let mut round_room = [0u64; ROOM];
    let rounds = input.table(&mut round_room);
    let mut challenge_room = [0u32; ROOM];
    let challenges = input.table(&mut challenge_room);
    let mut last_room = [0i32; ROOM];
    let last = input.table(&mut last_room);
    let mut claim_room = [0u64; ROOM];
    let claims = input.table(&mut claim_room);
    let mut tables = TablesMut {
        key,
        message,
        commitment,
        rounds,
        challenges,
        last,
        claims,
    };
    let answer = table_reader::read(parts, text, &mut tables);
    output::refusal(rt, answer);
    output::settings(rt, answer.unwrap_or(NO_SETTINGS));
    output::table(rt, tables.key);
    output::table(rt, tables.message);
    output::table(rt, tables.commitment);
    output::table(rt, tables.rounds);
    output::table(rt, tables.challenges);
    output::table(rt, tables.last);
    output::table(rt, tables.claims);
    output::end(rt);
}

pub fn write(rt: &impl Print, input: &mut Input) {
    let settings = input.settings();
    let parts = input.parts();
    let mut text_room = [0u8; TEXT_ROOM];
    let out = input.blank(&mut text_room);
    let mut key_room = [0u64; ROOM];
    let key = input.table(&mut key_room);
    let mut message_room = [0i32; ROOM];
    let message = input.table(&mut message_room);
    let mut commitment_room = [0u64; ROOM];
    let commitment = input.table(&mut commitment_room);
    let mut round_room = [0u64; ROOM];
    let rounds = input.table(&mut round_room);
    let mut challenge_room = [0u32; ROOM];
    let challenges = input.table(&mut challenge_room);
    let mut last_room = [0i32; ROOM];
    let last = input.table(&mut last_room);
    let mut claim_room = [0u64; ROOM];
    let claims = input.table(&mut claim_room);
    let tables = Tables {
        key,
        message,
        commitment,
        rounds,
        challenges,
        last,
        claims,
    };
    let answer = table_writer::write(settings, parts, &tables, out);
    output::refusal(rt, answer);
    output::number(rt, answer.unwrap_or(0));
    output::text(rt, out);
    output::end(rt);
}

// A refusal's number and a verdict, as the other calls print them.
pub fn verify(rt: &impl Print, input: &mut Input) {
    let mut text_room = [0u8; TEXT_ROOM];
    let text = input.text(&mut text_room);
    let answer = text_calls::verify(text);
    output::refusal(rt, answer);
    output::verdict(rt, answer);
    output::end(rt);
}

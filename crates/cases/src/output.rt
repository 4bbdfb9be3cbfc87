// Answers on standard output: a line of numbers with single spaces. `refusal` begins a line, `end` ends it. A write that fails is passed over.

use protocol::{Item, Refusal, Session, Settings, Verdict, WIDTH};
use std::fmt::Display;

// The number of a refusal, 0 where nothing is refused.
pub fn refusal<T: Drop>(rt: &impl Print, answer: Result<T, Refusal>) {
    let number = match answer {
        Ok(_) => 0,
        Err(refusal) => refusal.number(),
    };
    let _ = print!(rt; "{number}");
}

pub fn number<T: Copy + Display>(rt: &impl Print, x: T) {
    let _ = print!(rt; " {x}");
}

pub fn flag(rt: &impl Print, x: bool) {
    number(rt, u32::from(x));
}

pub fn end(rt: &impl Print) {
    let _ = println!(rt; "");
}

// Numbers, with no length before them.
fn each<T: Copy + Display>(rt: &impl Print, t: &[T]) {
    for x in t {
        number(rt, *x);
    }
}

// A table: its length and its numbers.
pub fn table<T: Copy + Display>(rt: &impl Print, t: &[T]) {
    number(rt, t.len());
    each(rt, t);
}

// A text: its length, and on the next lines its bytes as they are.
pub fn text(rt: &impl Print, t: &[u8]) {
    number(rt, t.len());
    end(rt);
    let _ = rt.write_all(t);
}

// An element by value: how many places there are up to the last one that is not 0, and those places.
fn places<T: Copy + PartialEq + Display>(rt: &impl Print, zero: T, a: &[T]) {
    let count = a
        .iter()
        .rposition(|x| *x != zero)
        .map_or(0, |last| last + 1);
    table(rt, &a[..count]);
}

pub fn item(rt: &impl Print, a: &Item) {
    places(rt, 0, a);
}

pub fn element(rt: &impl Print, a: &[i32; WIDTH]) {
    places(rt, 0, a);
}

pub fn verdict(rt: &impl Print, said: Result<Verdict, Refusal>) {
    number(
        rt,
        match said {
            Err(_) => 0,
            Ok(Verdict::Holds) => 1,
            Ok(Verdict::Accepted) => 2,
            Ok(Verdict::Rejected) => 3,
        },
    );
}

pub fn settings(rt: &impl Print, s: Settings) {
    number(rt, s.degree);
    number(rt, s.depth);
    number(rt, s.modulus);
    number(rt, s.bound);
    number(rt, s.rows);
}

pub fn session(rt: &impl Print, s: Session) {
    settings(rt, s.settings);
    number(rt, s.done);
    flag(rt, s.closed);
    item(rt, &s.claims);
    each(rt, &s.challenges);
}

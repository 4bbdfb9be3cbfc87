// Runs cases through the public calls and prints their answers. Standard input is a stream of decimal numbers: for each case the number of
// its call and then its inputs, a table or an element being its length and then its numbers, a text its length, a line feed and then its
// bytes. The answer to each case is one line, or more where a text is in it.
#![tactic(auto)]

mod extracting;
mod input;
mod openings;
mod output;
mod texts;
mod verifying;

use crate::input::Input;
use protocol::WIDTH;

// Room for a message or a row of a key, which have 2^8 elements at most, for the rounds, challenges or leaves of a tree; for a vector; and for a text, and some that
// are longer than the longest. A key of several rows is a case only where it fits.
const ROOM: usize = 256 * WIDTH;

const VECTOR_ROOM: usize = 1024;

const TEXT_ROOM: usize = 65600;

fn run(rt: &impl Print, call: u32, input: &mut Input) {
    match call {
        1 => openings::commit(rt, input),
        2 => openings::round(rt, input),
        3 => openings::fold(rt, input),
        4 => openings::end(rt, input),
        5 => openings::opening(rt, input),
        6 => verifying::start(rt, input),
        7 => verifying::round(rt, input),
        8 => verifying::end(rt, input),
        9 => verifying::check(rt, input),
        10 => extracting::judge(rt, input),
        11 => extracting::extract(rt, input),
        12 => texts::read(rt, input),
        13 => texts::write(rt, input),
        15 => texts::verify(rt, input),
        // A call that is not run here.
        _ => {
            let _ = println!(rt; "unknown");
        }
    }
}

fn main(rt: HostRuntime) {
    let mut input = Input::new(rt.stdin());
    for _ in 0..u64::MAX {
        let Some(call) = input.number() else {
            return;
        };
        run(&rt, u32::from(call), &mut input);
    }
}

// The program `verify`: reads a text from standard input and prints one line, what the verifier says of it.
#![tactic(auto)]

// One byte more than the longest text has is read, so that a longer one is seen to be longer.
fn main(rt: HostRuntime) {
    let mut text = [0u8; 65537];
    let Ok(n) = streams::read_until_stopped(&mut rt.stdin(), &mut text) else {
        let _ = streams::write(&mut rt.stderr(), b"verify: cannot read standard input\n");
        return;
    };
    let mut out = [0u8; 19];
    let count = verify_text::print(&text[..n], &mut out);
    if let Err(_) = streams::write(&mut rt.stdout(), &out[..count]) {
        let _ = streams::write(&mut rt.stderr(), b"verify: cannot write standard output\n");
    }
}

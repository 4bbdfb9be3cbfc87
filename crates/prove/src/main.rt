// The program `prove`: reads key, message and challenges as a text from standard input, and prints the text of their transcript.
#![tactic(auto)]

// One byte more than the longest text has is read, so that a longer one is seen to be longer.
fn main(rt: HostRuntime) {
    let mut text = [0u8; 65537];
    let Ok(n) = streams::read_until_stopped(&mut rt.stdin(), &mut text) else {
        let _ = streams::write(&mut rt.stderr(), b"prove: cannot read standard input\n");
        return;
    };
    let mut out = [0u8; 65536];
    let count = prove_text::print(&text[..n], &mut out);
    if let Err(_) = streams::write(&mut rt.stdout(), &out[..count]) {
        let _ = streams::write(&mut rt.stderr(), b"prove: cannot write standard output\n");
    }
}

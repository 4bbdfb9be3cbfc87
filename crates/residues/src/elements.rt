// Elements of flat tables.
ghost use Rattle.std.specs.Prelude.{◌≡◌, ◌≤◌};
ghost use Rattle.protocol.specs.Basic.{Provided};
ghost use Rattle.protocol.specs.Element.{width};

use crate::{Entry, store};
use protocol::WIDTH;

// Element i of a flat table; coefficients that the table does not have are 0.
pub fn element_at<T: Entry>(d: u32, t: &[T], i: u32) -> [T; WIDTH]
    ensures { Provided (d ≤ width) (result ≡ T.element d t.now i) }
{
    let mut a = [T::NONE; WIDTH];
    let n = d as usize;
    if n > WIDTH {
        return a;
    }
    let at = (i as usize) * n;
    if at > t.len() {
        return a;
    }
    let there = n.min(t.len() - at);
    store(there, &t[at..], 0, &mut a);
    a
}

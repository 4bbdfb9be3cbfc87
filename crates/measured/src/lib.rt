// Functions of inner crates that are measured alone: a static library for bench/, and no part of the library that is linked.
#![tactic(auto)]

ghost use Rattle.std.specs.Prelude.{◌≡◌, length};
ghost use Rattle.protocol.specs.Basic.{Provided};
ghost use Rattle.protocol.specs.Element.{reduced, signed_at, residue_at};
ghost use Rattle.protocol.specs.Opening.{inner};
ghost use Rattle.product_sums.specs.Sums.{Summable};
ghost use Rattle.text_format.specs.Text.{begins_with_names};

// Does a text begin with the names line.
#[unsafe(no_mangle)]
pub extern "C" fn measured_names(text: &[u8]) -> bool
    ensures { result ≡ begins_with_names text.now }
{
    text_names::begins_with_names(text)
}

// The inner product of `count` elements modulo 12289 by the plain way, which the transform is measured beside.
#[unsafe(no_mangle)]
pub extern "C" fn measured_plain_inner(
    degree: u32,
    count: u32,
    key: &[u64],
    message: &[i32],
    out: &mut [u64],
)
    ensures { Provided (Summable 12289 degree count message.now key.now) (Provided (length out.old ≡ degree)
        (out.new ≡ reduced 12289 degree (inner degree count (signed_at degree message.now) (residue_at degree key.now)))) }
{
    let sum = plain_products::inner(12289, degree, count, message, key);
    residues::store(degree as usize, &sum, 0, out);
}

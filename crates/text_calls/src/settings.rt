// Settings that are written to slices.
ghost use Rattle.std.specs.Prelude.{◌≡◌, length};
ghost use Rattle.text_calls.specs.Texts.{settings_width, settings_numbers};

use protocol::Settings;

// How many settings there are: `settings_width` of the definitions.
pub const SETTINGS: usize = 5;

// Writes them to a slice.
#[tactic(auto, unfolding(crate::specs::Texts::settings_numbers))]
pub fn store(s: Settings, out: &mut [u64])
    requires { length out.old ≡ settings_width }
    ensures { out.new ≡ settings_numbers s }
{
    out.copy_from_slice(&[
        u64::from(s.degree),
        u64::from(s.depth),
        s.modulus,
        u64::from(s.bound),
        u64::from(s.rows),
    ]);
}

// The fields of a frame.
ghost use Rattle.std.specs.Prelude.{◌≡◌, ◌+◌, ◌*◌, ◌<◌};
ghost use Rattle.rules_tables.specs.Frame.{frames_of, kind_at, flag_at, field_at};

use numbers::bytes::{byte_at, half_at};

pub fn kind(t: &[u8], f: usize) -> usize
    requires { f < frames_of t.now }
    ensures { (result ≡ kind_at t.now f) × (result < 256) }
{
    byte_at(t, 12 * f)
}

pub fn flag(t: &[u8], f: usize) -> usize
    requires { f < frames_of t.now }
    ensures { (result ≡ flag_at t.now f) × (result < 256) }
{
    byte_at(t, 12 * f + 1)
}

// The fields a to e are 0 to 4.
pub fn field(t: &[u8], f: usize, j: usize) -> usize
    requires { (f < frames_of t.now) × (j < 5) }
    ensures { (result ≡ field_at t.now f j) × (result < 65536) }
{
    half_at(t, 12 * f + (2 * j + 2))
}

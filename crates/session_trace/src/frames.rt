// A trace printed: a line of 24 digits for each of its frames.
ghost use Rattle.std.specs.Prelude.{◌≡◌, ◌+◌, ◌*◌, ◌/◌, ◌≤◌, length};
ghost use Rattle.std.proofs.lemmas.List.Edits.{sets};
ghost use Rattle.rules_shows.specs.Lines.{bytes_lines};

use lines::text::put_line;

// The bytes of a frame.
pub const FRAME: usize = 12;

// The lines of the frames that lie one after another in `trace`, and the place after them.
pub fn put_lines(trace: &[u8], text: &mut [u8], at: usize) -> usize
    requires { at + 25 * (length trace.now / 12) ≤ length text.old }
    ensures { (text.new ≡ sets text.old at (bytes_lines trace.now))
        × (result ≡ at + length (bytes_lines trace.now)) × (result ≡ at + 25 * (length trace.now / 12)) }
{
    let mut p = at;
    for k in 0..trace.len() / FRAME {
        p = put_line(&trace[FRAME * k..FRAME * k + FRAME], text, p);
    }
    p
}

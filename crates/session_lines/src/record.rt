// Records printed: they come before the answer of a run, a line each.
ghost use Rattle.std.specs.Prelude.{◌≡◌, ◌+◌, ◌*◌, ◌≤◌, length};
ghost use Rattle.std.proofs.lemmas.List.Edits.{sets};
ghost use Rattle.rules_moves.specs.Record.{record_size};
ghost use Rattle.rules_tables.specs.Judge.{judged};
ghost use Rattle.rules_sessions.specs.RecordLines.{record_lines, records_by};

use lines::text::put_line;
use moves_take::record::record_size;
use numbers::bytes::half_at;
use store_words::network::Network;
use table_check::check;

// The lines of the records that lie one after another in `out`, for a table that was accepted, and the place after them. A record's bytes 2 and 3 name its
// event input, and that says how long it is.
fn put_all(net: &Network, out: &[u8], text: &mut [u8], at: usize) -> usize
    requires { at + 3 * length out.now ≤ length text.old }
    ensures { (text.new ≡ sets text.old at (record_lines (record_size net.now.table.now net.now.shape) out.now 0 (length out.now)))
        × (result ≤ at + 3 * length out.now)
        × (result ≡ at + length (record_lines (record_size net.now.table.now net.now.shape) out.now 0 (length out.now))) }
{
    let n = out.len();
    let mut from = 0;
    let mut p = at;
    // Stays a `while`: each record says itself how long it is, so no range and no chunks give the next one.
    while 16 <= n - from {
        let size = record_size(net, half_at(out, from + 2));
        if n - from < size {
            return p;
        }
        let to = from + size;
        p = put_line(&out[from..to], text, p);
        from = to;
    }
    p
}

// The same for any table: a refused one has no records.
pub fn put_records(t: &[u8], out: &[u8], text: &mut [u8], at: usize) -> usize
    requires { at + 3 * length out.now ≤ length text.old }
    ensures { (text.new ≡ sets text.old at (records_by (judged t.now) t.now out.now))
        × (result ≤ at + 3 * length out.now)
        × (result ≡ at + length (records_by (judged t.now) t.now out.now)) }
{
    let Ok(shape) = check(t) else {
        return at;
    };
    let net = Network { table: t, shape };
    put_all(&net, out, text, at)
}

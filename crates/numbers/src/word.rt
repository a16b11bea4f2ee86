// A store word and its signed value.
ghost use Rattle.std.specs.Prelude.{◌≡◌, ◌-◌, ◌≤◌};
ghost use Rattle.numbers.specs.Bounded.{Bounded};
ghost use Rattle.rules_numbers.specs.Word.{signed, word, ticks_of};

// The signed value of a word.
pub fn to_signed(w: u32) -> i32
    ensures { result ≡ signed w }
{
    w.cast_signed()
}

// The word of a signed value: the way back.
pub fn to_word(v: i32) -> u32
    ensures { result ≡ word v }
{
    v.cast_unsigned()
}

// A delay's time in ticks: a negative DT counts as 0.
pub fn ticks(dt: u32) -> u32
    ensures { Bounded 2147483648 (ticks_of (signed dt)) result }
{
    dt.cast_signed().max(0).cast_unsigned()
}

// How long ago, or 0.
pub fn since(time: u32, birth: u32) -> u32
    ensures { (result ≡ time - birth) × (result ≤ time) }
{
    time.saturating_sub(birth)
}

// A word as a count or a place. Stays a cast: the library has no `From<u32>` for `usize`.
pub fn wide(x: u32) -> usize
    ensures { Bounded 4294967296 x result }
{
    x as usize
}

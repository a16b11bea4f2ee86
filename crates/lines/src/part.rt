// Parts of buffers.
ghost use Rattle.std.specs.Prelude.{◌≡◌, take, set};

// The first n elements, or all there are.
pub fn stretch<T>(s: &[T], n: usize) -> &[T]
    ensures { result.now ≡ take n s.now }
{
    &s[..n.min(s.len())]
}

// Past the end nothing is written.
pub fn put_at<T: Copy>(s: &mut [T], at: usize, x: T)
    ensures { s.new ≡ set s.old at x }
{
    if at < s.len() {
        s[at] = x;
    }
}

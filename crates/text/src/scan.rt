// The first place of a byte.
ghost use Rattle.std.specs.Prelude.{◌≡◌, ◌<◌, length, MatchOption};
ghost use Rattle.text.specs.Scan.{index_of};

// The first place where c stands, if it stands anywhere.
pub fn find(s: &[u8], c: u8) -> Option<usize>
    ensures { MatchOption result (index_of c s.now ≡ length s.now) (λ i. (i ≡ index_of c s.now) × (i < length s.now)) }
{
    for i in 0..s.len() {
        if s[i] == c {
            return Some(i);
        }
    }
    None
}

// One block of SHA-1 (FIPS 180-4, 6.1.2): the message schedule, eighty rounds, and the sum.
ghost use Rattle.std.specs.Prelude.{◌≡◌, List, ℕ, ◌+◌, ◌<◌, ◌≤◌, get_or};
ghost use Rattle.fips180.specs.Sha1.{schedule, turned, round, rounds, plus, compressed};
ghost use Rattle.fips180.specs.Begun.{Begun};
ghost use Rattle.fips180.specs.Twenty.{RoundsBy};

// The hash value H0 to H4, and the working variables a to e.
#[derive(Clone, Copy)]
pub struct State {
    pub a: u32,
    pub b: u32,
    pub c: u32,
    pub d: u32,
    pub e: u32,
}

// One round, with the values of f t, K t and W t.
fn turn(s: State, ft: u32, kt: u32, wt: u32) -> State
    ensures { result ≡ turned s ft kt wt }
{
    let a = words::add(
        words::add(words::add(words::add(words::rotl(s.a, 5), ft), s.e), kt),
        wt,
    );
    let c = words::rotl(s.b, 30);
    State {
        a,
        b: s.a,
        c,
        d: s.c,
        e: s.d,
    }
}

// Room for the message schedule of a block, with the block's own sixteen words in it.
fn first_words(block: &[u8; 64]) -> [u32; 80]
    ensures { Begun result block.now 0 }
{
    let mut w = [0u32; 80];
    for t in 0..16 {
        w[t] = words::load(block, t * 4);
    }
    w
}

// Word t of the message schedule, of whatever block: the later ones are worked out when their round wants them.
fn word(w: &mut [u32; 80], t: usize) -> u32
    requires { t < 80 }
    ensures { (b : List ℕ) → Begun w.old b t → (result ≡ get_or (schedule b 80) t 0) × Begun w.new b (t + 1) }
{
    if t < 16 {
        return w[t];
    }
    let mixed = words::xor4(w[t - 3], w[t - 8], w[t - 14], w[t - 16]);
    let late = words::rotl(mixed, 1);
    w[t] = late;
    late
}

// Round t, with the function and the constant of the twenty that it is one of.
fn round<F: Fn(u32, u32, u32) -> u32 + Copy>(
    s: State,
    w: &mut [u32; 80],
    t: usize,
    mix: F,
    k: u32,
) -> State
    requires callable { F.IsAlwaysCallable mix }
    requires rounds { RoundsBy (F.post mix) k t (t + 1) }
    requires within { t < 80 }
    ensures { (b : List ℕ) → Begun w.old b t → (result ≡ round (schedule b 80) t s) × Begun w.new b (t + 1) }
{
    let wt = word(w, t);
    let ft = mix(s.b, s.c, s.d);
    turn(s, ft, k, wt)
}

// Five rounds, after which a to e are back in their registers. They are written out, so that the compiler sees fixed places of w.
#[tactic(auto, using(crate::proofs::Sha1Laws::rounds_within))]
fn five<F: Fn(u32, u32, u32) -> u32 + Copy>(
    s: State,
    w: &mut [u32; 80],
    t: usize,
    mix: F,
    k: u32,
) -> State
    requires callable { F.IsAlwaysCallable mix }
    requires rounds { RoundsBy (F.post mix) k t (t + 5) }
    requires within { t + 5 ≤ 80 }
    ensures { (b : List ℕ) → Begun w.old b t → (result ≡ rounds (schedule b 80) t 5 s) × Begun w.new b (t + 5) }
{
    let s1 = round(s, w, t, mix, k);
    let s2 = round(s1, w, t + 1, mix, k);
    let s3 = round(s2, w, t + 2, mix, k);
    let s4 = round(s3, w, t + 3, mix, k);
    round(s4, w, t + 4, mix, k)
}

// Twenty rounds from round t on, with one function and one constant. Each of the four twenties is written out where it is called: of two
// that are passed the same function the compiler would otherwise make one, and not see fixed places of w.
#[inline(always)]
#[tactic(auto, using(crate::proofs::Sha1Laws::rounds_within))]
fn twenty<F: Fn(u32, u32, u32) -> u32 + Copy>(
    s: State,
    w: &mut [u32; 80],
    t: usize,
    mix: F,
    k: u32,
) -> State
    requires callable { F.IsAlwaysCallable mix }
    requires rounds { RoundsBy (F.post mix) k t (t + 20) }
    requires within { t + 20 ≤ 80 }
    ensures { (b : List ℕ) → Begun w.old b t → (result ≡ rounds (schedule b 80) t 20 s) × Begun w.new b (t + 20) }
{
    let s5 = five(s, w, t, mix, k);
    let s10 = five(s5, w, t + 5, mix, k);
    let s15 = five(s10, w, t + 10, mix, k);
    five(s15, w, t + 15, mix, k)
}

fn sum(s: State, h: State) -> State
    ensures { result ≡ plus s h }
{
    State {
        a: words::add(s.a, h.a),
        b: words::add(s.b, h.b),
        c: words::add(s.c, h.c),
        d: words::add(s.d, h.d),
        e: words::add(s.e, h.e),
    }
}

// The hash value after a block. The schedule's words are lent from twenty to twenty.
pub fn compress(h: State, block: &[u8; 64]) -> State
    ensures { result ≡ compressed h block.now }
{
    let mut w = first_words(block);
    let v0 = twenty(h, &mut w, 0, words::ch, 0x5a82_7999);
    let v1 = twenty(v0, &mut w, 20, words::parity, 0x6ed9_eba1);
    let v2 = twenty(v1, &mut w, 40, words::maj, 0x8f1b_bcdc);
    let v3 = twenty(v2, &mut w, 60, words::parity, 0xca62_c1d6);
    sum(v3, h)
}

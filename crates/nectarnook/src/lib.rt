// The C face: functions that a program in C or Rust links. No logic stands here. The five calls are in `face`.
#![tactic(auto)]

mod face;

ghost use Rattle.std.specs.Prelude.{◌≡◌};
ghost use Rattle.fips180.specs.Sha1.{sha1};
ghost use Rattle.hmac.specs.Hmac.{hmac, by_sha1};

pub use face::{nn_abort, nn_build, nn_close, nn_open, nn_reset};

// The SHA-1 of m into out. From C: void nn_sha1(const uint8_t *m, size_t n, uint8_t out[20]).
#[unsafe(no_mangle)]
pub extern "C" fn nn_sha1(m: &[u8], out: &mut [u8; 20])
    ensures { out.new ≡ sha1 m.now }
{
    *out = fips180::hash(m);
}

// The HMAC-SHA1 of m under key into out.
// From C: void nn_hmac_sha1(const uint8_t *key, size_t k, const uint8_t *m, size_t n, uint8_t out[20]).
#[unsafe(no_mangle)]
pub extern "C" fn nn_hmac_sha1(key: &[u8], m: &[u8], out: &mut [u8; 20])
    ensures { out.new ≡ hmac by_sha1 key.now m.now }
{
    *out = hmac::hmac_of(key, m);
}

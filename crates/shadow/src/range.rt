// The range rule, for reads and writes alike.
ghost use Rattle.std.specs.Prelude.{◌≡◌};
ghost use Rattle.rules.specs.Shadow.{judge};

use rules::limits::{GRANULE, OUTSIDE};
use rules::{BadByte, Verdict};

// "Whole numbers that don't wrap": 64 bits hold the sum of two 32-bit numbers. The touched bytes from `outside` on lie
// beyond the arena; each before it is judged by its granule's shadow byte. The first bad byte ends the walk.
#[tactic(auto, using(crate::proofs::Walked::walked))]
pub fn judge(shadow: &[u8], address: u32, length: u32) -> Verdict
    ensures { result ≡ judge shadow.now address length }
{
    let start = address as u64;
    let end = start + length as u64;
    let arena = GRANULE.saturating_mul(shadow.len()) as u64;
    let outside = arena.clamp(start, end);
    for byte in start..outside {
        let at = byte as usize;
        let value = shadow[at / GRANULE];
        if at % GRANULE >= crate::byte::leading(value) as usize {
            return Err(BadByte {
                kind: value,
                first: byte,
            });
        }
    }
    if outside < end {
        return Err(BadByte {
            kind: OUTSIDE,
            first: outside,
        });
    }
    Ok(())
}

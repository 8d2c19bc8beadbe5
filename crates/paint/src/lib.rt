// The painter, lent only the part of the shadow that it may write, and what the whole shadow then is.
#![tactic(auto)]

ghost use Rattle.std.specs.Prelude.{◌≡◌, ◌+◌, ◌≤◌, length, replicate};
ghost use Rattle.rules.specs.Put.{put, fill};
ghost use Rattle.rules.specs.Grant.{granules, granted};

use rules::limits::GRANULE;

// The granules of a block: its size / 8 rounded up.
#[tactic(auto, unfolding(rules::specs::Grant::granules))]
pub fn granules_of(size: u32) -> usize
    ensures { result ≡ granules size }
{
    (size as usize).div_ceil(GRANULE)
}

// Every byte of the part becomes `value`.
pub fn cover(part: &mut [u8], value: u8)
    ensures { part.new ≡ replicate (length part.old) value }
{
    part.fill(value);
}

#[tactic(auto, using(crate::proofs::Granted::granted_part))]
fn cover_granted(part: &mut [u8], size: u32)
    requires { length part.old ≡ granules size }
    ensures { part.new ≡ granted size }
{
    cover(part, 0);
    let whole = size as usize / GRANULE;
    let rest = size as usize % GRANULE;
    if rest != 0 {
        part[whole] = rest as u8;
    }
}

// A granted block: whole granules 00, a remainder in the last one.
#[tactic(auto, using(rules::proofs::Put::put_lent, rules::proofs::Grant::length_granted))]
pub fn grant(shadow: &mut [u8], place: usize, size: u32)
    requires { place + granules size ≤ length shadow.old }
    ensures { shadow.new ≡ put shadow.old place (granted size) }
{
    let end = place + granules_of(size);
    cover_granted(&mut shadow[place..end], size);
}

// A held row's granules become `value`; of a row past the shadow's end, those that exist.
#[tactic(auto, using(rules::proofs::Put::put_lent, rules::proofs::Put::fill_past), unfolding(rules::specs::Put::fill))]
pub fn row(shadow: &mut [u8], start: u32, size: u32, value: u8)
    ensures { shadow.new ≡ fill shadow.old start (granules size) value }
{
    let from = start as usize;
    if from < shadow.len() {
        let room = shadow.len() - from;
        let end = from + granules_of(size).min(room);
        cover(&mut shadow[from..end], value);
    }
}

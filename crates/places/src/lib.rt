// Where a block goes: the lowest place that keeps its redzones.
#![tactic(auto)]

ghost use Rattle.std.specs.Prelude.{◌≡◌};
ghost use Rattle.rules.specs.Grant.{place};
ghost use Rattle.places.specs.Window.{Window};

use rules::limits::REDZONE_BYTE;

// "A candidate start is given up at the first shadow byte that is not fa": each window that holds that byte fails with
// it, so the next start is past it. `start` is where the window begins, its redzone below included.
#[tactic(auto, using(crate::proofs::Sought::walked))]
pub fn place(shadow: &[u8], redzone: usize, granules: usize) -> Option<usize>
    requires { Window redzone granules }
    ensures { result ≡ place shadow.now redzone granules }
{
    let window = redzone + granules + redzone;
    let mut start = 0;
    'starts: while window <= shadow.len() - start {
        for passed in 0..window {
            if shadow[start + passed] != REDZONE_BYTE {
                start = start + passed + 1;
                continue 'starts;
            }
        }
        return Some(start + redzone);
    }
    None
}

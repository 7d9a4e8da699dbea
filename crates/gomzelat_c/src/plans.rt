//! Plans (36.212 5.1.2).
ghost use Rattle.std.specs.Prelude.{◌≡◌, ◌≢◌, [], ◌∷◌};
ghost use Rattle.model_sender.specs.Segmentation.{plan_of};
ghost use Rattle.gomzelat_c.specs.Plans.{numbers};
ghost use Rattle.gomzelat_c.specs.Refusals.{told};
ghost use Rattle.gomzelat_c.specs.Tests.{first_failed, length_test};

use crate::refusal::Refusal;

/// The segmentation plan of a transport block: C, K+, K-, C+, C- and F. The first `c_minus` of the `c` code
/// blocks have `k_minus` bits, the others `k_plus`, and the first one begins with `f` fillers.
#[repr(C)]
#[derive(Clone, Copy, Debug)]
pub struct Plan {
    pub c: usize,
    pub k_plus: usize,
    pub k_minus: usize,
    pub c_plus: usize,
    pub c_minus: usize,
    pub f: usize,
}

/// Writes the segmentation plan of a payload of `bytes` bytes to `plan`. Returns 0, or 2 with nothing changed
/// if there are no bytes or more than 18,722.
#[unsafe(no_mangle)]
pub extern "C" fn gomzelat_plan(bytes: usize, plan: &mut Plan) -> u32
    ensures answer { result ≡ told (first_failed (length_test bytes ∷ [])) }
    ensures plan { result ≡ 0 → plan.new ≡ numbers (plan_of bytes) }
    ensures kept { result ≢ 0 → plan.new ≡ plan.old }
{
    match segmentation::plan(bytes) {
        Ok(p) => {
            *plan = Plan {
                c: p.c,
                k_plus: p.k_plus,
                k_minus: p.k_minus,
                c_plus: p.c_plus,
                c_minus: p.c_minus,
                f: p.f,
            };
            0
        }
        Err(bad) => Refusal::from(bad).number(),
    }
}

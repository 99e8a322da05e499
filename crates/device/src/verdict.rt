// What a sample is answered.
ghost use Rattle.std.specs.Prelude.{◌≡◌};
ghost use Rattle.device.specs.Sample.{sample_answer};

use channels::in_range;
use registers::{Answer, Refusal};

#[tactic(auto, unfolding(crate::specs::Sample::sample_answer))]
pub fn sample_answer(x: i16, y: i16, z: i16) -> Answer
    ensures { result ≡ sample_answer x y z }
{
    if in_range(x) && in_range(y) && in_range(z) {
        Ok(())
    } else {
        Err(Refusal::OutOfRange)
    }
}

// A draw: a step, and the state's share of a number.
ghost use Rattle.std.specs.Prelude.{◌≡◌, ◌*◌, ◌/◌};
ghost use Rattle.generator.specs.Generator.{states, step, draw_below};

use crate::steps::step;

// How many states there are.
const STATES: u64 = 4294967296;

// A generator, by the state that it is in.
#[derive(Clone, Copy)]
pub struct Generator {
    pub state: u32,
}

impl Generator {
    // A draw below n, after a step.
    pub fn draw(&mut self, n: u32) -> u32
        ensures drawn { result ≡ (draw_below n self.old.state).number }
        ensures stepped { self.new.state ≡ (draw_below n self.old.state).state }
    {
        self.state = step(self.state);
        share_of(self.state, n)
    }
}

#[tactic(auto, using(crate::proofs::StepsLaws::product_fits))]
fn share_of(s: u32, n: u32) -> u32
    ensures { result ≡ s * n / states }
{
    (u64::from(s) * u64::from(n) / STATES) as u32
}

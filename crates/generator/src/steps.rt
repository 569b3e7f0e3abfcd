// A single step, wrapping at 32 bits, and any other map of that kind.
ghost use Rattle.std.specs.Prelude.{◌≡◌, ◌*◌, ◌%◌};
ghost use Rattle.generator.specs.Generator.{states, mapped, one, step, doubled};

// A state times the factor, and the term added.
#[derive(Clone, Copy)]
pub struct Affine {
    pub factor: u32,
    pub term: u32,
}

// The helper that document 01 names for the step: of a product the lower 32 bits stay.
pub fn wrapping_product(a: u32, b: u32) -> u32
    ensures { result ≡ a * b % states }
{
    a.wrapping_mul(b)
}

impl Affine {
    // The map of a single step.
    pub fn one() -> Affine
        ensures { result ≡ one }
    {
        Affine {
            factor: 1664525,
            term: 1013904223,
        }
    }

    // The state that the map makes of another.
    #[tactic(auto, using(crate::proofs::GeneratorLaws::wrapped))]
    pub fn applied_to(self, s: u32) -> u32
        ensures { result ≡ mapped self s }
    {
        wrapping_product(self.factor, s).wrapping_add(self.term)
    }

    // The map done twice.
    pub fn doubled(self) -> Affine
        ensures { result ≡ doubled self }
    {
        Affine {
            factor: wrapping_product(self.factor, self.factor),
            term: self.applied_to(self.term),
        }
    }
}

pub fn step(s: u32) -> u32
    ensures { result ≡ step s }
{
    Affine::one().applied_to(s)
}

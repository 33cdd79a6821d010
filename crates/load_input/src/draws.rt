ghost use Rattle.std.specs.Prelude.{◌≡◌};
ghost use Rattle.load_input.specs.Draws.{next_state};

// What the state is multiplied by at each draw.
const FACTOR: u64 = 6_364_136_223_846_793_005;

// What is added to it then.
const ADDED: u64 = 1_442_695_040_888_963_407;

// How many of the state's bits, from the lowest on, are not drawn.
const BITS_LEFT: u32 = 33;

/// A generator of numbers.
#[derive(Drop)]
pub struct Draws {
    /// Its state.
    pub state: u64,
}

impl Draws {
    ghost use Rattle.std.specs.Prelude.{◌≡◌, ◌<◌};
    ghost use Rattle.load_input.specs.Draws.{drawn, next_state};

    /// Draws a number below another. Takes constant time.
    pub fn below(&mut self, end: u64) -> u64
        requires { 0 < end }
        ensures state { self.new.state ≡ next_state self.old.state }
        ensures drawn { result ≡ drawn (next_state self.old.state) end }
    {
        self.state = next(self.state);
        (self.state >> BITS_LEFT) % end
    }
}

// The state behind another.
#[tactic(auto, using(crate::proofs::States::wrapped))]
fn next(state: u64) -> u64
    ensures { result ≡ next_state state }
{
    state.wrapping_mul(FACTOR).wrapping_add(ADDED)
}

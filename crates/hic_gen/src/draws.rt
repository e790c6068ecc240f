//! Numbers drawn from a state.
ghost use Rattle.std.specs.Prelude.{◌≡◌, ◌<◌, ◌^◌};
ghost use Rattle.hic_gen.specs.Draws.{next_state, drawn};

/// A state of 64 bits, from which numbers of 32 bits are drawn. It starts as the seed.
#[derive(Clone, Copy, Debug)]
pub(crate) struct Generator {
    pub(crate) state: u64,
}

impl Generator {
    /// The next number.
    pub(crate) fn draw(&mut self) -> u32
        ensures drawn { result ≡ drawn self.old.state }
        ensures state { self.new.state ≡ next_state self.old.state }
    {
        self.state = stepped(self.state);
        (self.state >> 32) as u32
    }
}

/// The state after a draw.
fn stepped(state: u64) -> u64
    ensures { result ≡ next_state state }
{
    state
        .wrapping_mul(6_364_136_223_846_793_005)
        .wrapping_add(1_442_695_040_888_963_407)
}

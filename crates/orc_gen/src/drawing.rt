//! Draws.
ghost use Rattle.std.specs.Prelude.{◌≡◌};
ghost use Rattle.orc_gen.specs.Generator.{next, after, drawn};

/// The state after a draw.
fn next(state: u64) -> u64
    ensures { result ≡ next state }
{
    state
        .wrapping_mul(6_364_136_223_846_793_005)
        .wrapping_add(1_442_695_040_888_963_407)
}

/// Draws a number below 2^32.
#[tactic(auto, using(crate::proofs::Draws::after_one))]
pub fn draw(state: &mut u64) -> u32
    ensures state { state.new ≡ after 1 state.old }
    ensures value { result ≡ drawn state.old 0 }
{
    *state = next(*state);
    (*state >> 32) as u32
}

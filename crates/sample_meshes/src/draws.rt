// Numbers that are drawn one after another.

ghost use Rattle.std.specs.Prelude.{◌≡◌, ◌≤◌};
ghost use Rattle.sample_meshes.specs.Draws.{after_draw, after_draws, radius_at};

// The state after one more draw.
fn after_draw(state: u32) -> u32
    ensures { result ≡ after_draw state }
{
    ((u64::from(state) * 1_664_525 + 1_013_904_223) % (1 << 32)) as u32
}

// The state after n draws.
#[tactic(auto, using(crate::proofs::Outlines::draws_none, crate::proofs::Outlines::draws_more))]
pub(crate) fn skip_draws(start: u32, n: u32) -> u32
    ensures { result ≡ after_draws start n }
{
    let mut state = start;
    'draws: for drawn in 0..n {
        state = after_draw(state);
    }
    state
}

// The radius that a state gives, µm.
pub(crate) fn radius(state: u32) -> u32
    ensures value { result ≡ radius_at state }
    ensures small { result ≤ 9500 }
{
    9000 + state / 65536 % 501
}

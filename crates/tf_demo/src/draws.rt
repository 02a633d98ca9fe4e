ghost use Rattle.std.specs.Prelude.{◌≡◌, ◌≤◌, ◌<◌, ◌%◌};
ghost use Rattle.tf_demo.specs.Demo.{drawn};

/// Draws a number below `bound`, and leaves the next state.
pub fn draw(state: &mut u32, bound: u32) -> u32
    requires state { state.old ≤ 65536 }
    requires bound { 0 < bound }
    ensures state { state.new ≡ drawn state.old }
    ensures small { state.new ≤ 65536 }
    ensures number { result ≡ drawn state.old % bound }
{
    *state = (75 * *state + 74) % 65_537;
    *state % bound
}

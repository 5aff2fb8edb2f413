// How far the turns of a call have come, and what a round does with the first one waiting.
ghost use Rattle.std.specs.Prelude.{◌≡◌, ◌<◌, ◌^◌};
ghost use Rattle.plans.specs.States.{state_after};

// A round leaves what waits, places the first one, or is written back for damage.
#[derive(Clone, Copy)]
pub enum Turn {
    Still,
    Placed,
    Damaged,
}

// How many are placed, and whether a round was written back for damage.
#[derive(Clone, Copy)]
pub struct State {
    pub placed: usize,
    pub met_damage: bool,
}

// The state after a round with this turn.
pub fn state_after(state: State, turn: Turn) -> State
    requires { state.placed < 2 ^ 32 }
    ensures { result ≡ state_after state turn }
{
    match turn {
        Turn::Still => state,
        Turn::Placed => State {
            placed: state.placed + 1,
            ..state
        },
        Turn::Damaged => State {
            met_damage: true,
            ..state
        },
    }
}

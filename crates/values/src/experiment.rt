// The experiment number that a value carries.
ghost use Rattle.std.specs.Prelude.{◌≡◌, cond, eqb};

// Its port's number in state 2, else 0.
pub fn value_experiment(state: u8, experiment: u16) -> u16
    ensures { result ≡ cond (eqb state 2) experiment 0 }
{
    let is_measured = state == 2;
    if is_measured { experiment } else { 0 }
}

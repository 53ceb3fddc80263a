// Variables of cycles, one after another.
ghost use Rattle.std.specs.Prelude.{◌≡◌, ◌+◌, ◌==◌, ◌<◌, ◌^◌, option_to_list};
ghost use Rattle.std.specs.List.{range_with_len};
ghost use Rattle.cycle_encoding.specs.Shapes.{numbered, vars_of};

use cnf_core::Lit;

/// The variable of a cycle, if it is one of the first `cycles`; `first` is the variable before that of cycle 0.
#[tactic(auto, using(crate::proofs::Grid::cycle_is, crate::proofs::Grid::no_cycle))]
pub fn cycle_var(first: u32, cycles: u32, cycle: u32) -> Option<Lit>
    requires few { first + cycles < 2 ^ 29 }
    ensures { option_to_list result ≡ vars_of (λ t. t == cycle) (numbered first (range_with_len 0 cycles)) }
{
    if cycle < cycles {
        Some(Lit {
            var: first + cycle + 1,
            positive: true,
        })
    } else {
        None
    }
}

// What operates and addresses come to.
ghost use Rattle.std.specs.Prelude.{◌≡◌, ◌<◌};
ghost use Rattle.alpha_machine.specs.Steps as steps;

use word_ops::{Operate, WordOp, apply};

/// The value of an operate. One of a single operand has that operand as its second.
pub(crate) fn operate_result(op: Operate, first: u64, second: u64) -> u64
    ensures { result ≡ steps.operate_result op first second }
{
    if op.arity() == 1 {
        apply(WordOp::Operate(op), &[second])
    } else {
        apply(WordOp::Operate(op), &[first, second])
    }
}

/// The address that lies `disp` times `scale` bytes behind `base`.
pub(crate) fn address(base: u64, scale: u64, disp: i64) -> u64
    ensures { result ≡ steps.address base scale disp }
{
    base.wrapping_add(scale.wrapping_mul(disp.cast_unsigned()))
}

/// Whether the number is a multiple of 2 to this power.
pub(crate) fn is_multiple(power: u8, number: u64) -> bool
    requires { power < 64 }
    ensures { result ≡ steps.is_multiple power number }
{
    number % (1 << power) == 0
}

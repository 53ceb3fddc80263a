// Operations bit by bit, and shifts.
ghost use Rattle.std.specs.Prelude.{◌≡◌, ◌<◌, ◌≤◌, ◌+◌, ◌*◌, ◌^◌, ◌-◌, ◌%◌};
ghost use Rattle.word_ops.specs.Values as value;

#[tactic(auto, unfolding(crate::specs::Values::and))]
pub(crate) fn and(a: u64, b: u64) -> u64
    ensures { result ≡ value.and a b }
{
    a & b
}

#[tactic(auto, unfolding(crate::specs::Values::bic))]
pub(crate) fn bic(a: u64, b: u64) -> u64
    ensures { result ≡ value.bic a b }
{
    a & !b
}

#[tactic(auto, unfolding(crate::specs::Values::bis))]
pub(crate) fn bis(a: u64, b: u64) -> u64
    ensures { result ≡ value.bis a b }
{
    a | b
}

#[tactic(auto, unfolding(crate::specs::Values::ornot))]
pub(crate) fn ornot(a: u64, b: u64) -> u64
    ensures { result ≡ value.ornot a b }
{
    a | !b
}

#[tactic(auto, unfolding(crate::specs::Values::xor))]
pub(crate) fn xor(a: u64, b: u64) -> u64
    ensures { result ≡ value.xor a b }
{
    a ^ b
}

#[tactic(auto, unfolding(crate::specs::Values::eqv))]
pub(crate) fn eqv(a: u64, b: u64) -> u64
    ensures { result ≡ value.eqv a b }
{
    a ^ !b
}

#[tactic(auto, unfolding(crate::specs::Values::not))]
pub(crate) fn not(a: u64) -> u64
    ensures { result ≡ value.not a }
{
    !a
}

#[tactic(auto, unfolding(crate::specs::Values::sll))]
pub(crate) fn sll(a: u64, b: u64) -> u64
    ensures { result ≡ value.sll a b }
{
    a << (b % 64)
}

#[tactic(auto, unfolding(crate::specs::Values::srl))]
pub(crate) fn srl(a: u64, b: u64) -> u64
    ensures { result ≡ value.srl a b }
{
    a >> (b % 64)
}

#[tactic(auto, using(crate::proofs::LoopSteps::sra_low, crate::proofs::LoopSteps::sra_high))]
pub(crate) fn sra(a: u64, b: u64) -> u64
    ensures { result ≡ value.sra a b }
{
    if a < 1 << 63 {
        a >> (b % 64)
    } else {
        !(!a >> (b % 64))
    }
}

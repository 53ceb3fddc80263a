// Sums, differences and products modulo 2 ^ 64, and sign extension.
ghost use Rattle.std.specs.Prelude.{◌≡◌, ◌<◌, ◌≤◌, ◌+◌, ◌*◌, ◌^◌, ◌-◌, ◌%◌};
ghost use Rattle.word_ops.specs.Values as value;

#[tactic(auto, unfolding(crate::specs::Values::addq))]
pub(crate) fn addq(a: u64, b: u64) -> u64
    ensures { result ≡ value.addq a b }
{
    a.wrapping_add(b)
}

#[tactic(auto, unfolding(crate::specs::Values::subq))]
pub(crate) fn subq(a: u64, b: u64) -> u64
    ensures { result ≡ value.subq a b }
{
    a.wrapping_sub(b)
}

#[tactic(auto, unfolding(crate::specs::Values::mulq))]
pub(crate) fn mulq(a: u64, b: u64) -> u64
    ensures { result ≡ value.mulq a b }
{
    a.wrapping_mul(b)
}

#[tactic(auto, unfolding(crate::specs::Values::s4addq))]
pub(crate) fn s4addq(a: u64, b: u64) -> u64
    ensures { result ≡ value.s4addq a b }
{
    a.wrapping_mul(4).wrapping_add(b)
}

#[tactic(auto, unfolding(crate::specs::Values::s8addq))]
pub(crate) fn s8addq(a: u64, b: u64) -> u64
    ensures { result ≡ value.s8addq a b }
{
    a.wrapping_mul(8).wrapping_add(b)
}

#[tactic(auto, unfolding(crate::specs::Values::s4subq))]
pub(crate) fn s4subq(a: u64, b: u64) -> u64
    ensures { result ≡ value.s4subq a b }
{
    a.wrapping_mul(4).wrapping_sub(b)
}

#[tactic(auto, unfolding(crate::specs::Values::s8subq))]
pub(crate) fn s8subq(a: u64, b: u64) -> u64
    ensures { result ≡ value.s8subq a b }
{
    a.wrapping_mul(8).wrapping_sub(b)
}

#[tactic(auto, unfolding(crate::specs::Values::umulh))]
pub(crate) fn umulh(a: u64, b: u64) -> u64
    ensures { result ≡ value.umulh a b }
{
    (a as u128 * b as u128 >> 64) as u64
}

#[tactic(auto, unfolding(crate::specs::Values::neg))]
pub(crate) fn neg(a: u64) -> u64
    ensures { result ≡ value.neg a }
{
    a.wrapping_neg()
}

// The low `k` bits of `a`, sign-extended.
#[tactic(auto, unfolding(crate::specs::Values::sign_extended))]
pub(crate) fn sign_extended(k: u32, a: u64) -> u64
    requires low { 0 < k }
    requires high { k < 64 }
    ensures { result ≡ value.sign_extended k a }
{
    let power: u64 = 1 << k;
    let low = a % power;
    if (a >> (k - 1)) % 2 == 0 {
        low
    } else {
        low.wrapping_sub(power)
    }
}

#[tactic(auto, unfolding(crate::specs::Values::sextb))]
pub(crate) fn sextb(a: u64) -> u64
    ensures { result ≡ value.sextb a }
{
    sign_extended(8, a)
}

#[tactic(auto, unfolding(crate::specs::Values::sextw))]
pub(crate) fn sextw(a: u64) -> u64
    ensures { result ≡ value.sextw a }
{
    sign_extended(16, a)
}

#[tactic(auto, unfolding(crate::specs::Values::lda))]
pub(crate) fn lda(x: u64, k: u64) -> u64
    ensures { result ≡ value.lda x k }
{
    x.wrapping_add(sign_extended(16, k))
}

#[tactic(auto, unfolding(crate::specs::Values::ldah))]
pub(crate) fn ldah(x: u64, k: u64) -> u64
    ensures { result ≡ value.ldah x k }
{
    x.wrapping_add(sign_extended(16, k).wrapping_mul(65536))
}

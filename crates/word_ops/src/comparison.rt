// Comparisons, which give 1 or 0, and the comparison of bytes.
ghost use Rattle.std.specs.Prelude.{◌≡◌, ◌<◌, ◌≤◌, ◌+◌, ◌*◌, ◌^◌, ◌-◌, ◌%◌};
ghost use Rattle.word_ops.specs.Values as value;

#[tactic(auto, unfolding(crate::specs::Values::cmpeq))]
pub(crate) fn cmpeq(a: u64, b: u64) -> u64
    ensures { result ≡ value.cmpeq a b }
{
    u64::from(a == b)
}

#[tactic(auto, unfolding(crate::specs::Values::cmplt))]
pub(crate) fn cmplt(a: u64, b: u64) -> u64
    ensures { result ≡ value.cmplt a b }
{
    u64::from(a.cast_signed() < b.cast_signed())
}

#[tactic(auto, unfolding(crate::specs::Values::cmple))]
pub(crate) fn cmple(a: u64, b: u64) -> u64
    ensures { result ≡ value.cmple a b }
{
    u64::from(a.cast_signed() <= b.cast_signed())
}

#[tactic(auto, unfolding(crate::specs::Values::cmpult))]
pub(crate) fn cmpult(a: u64, b: u64) -> u64
    ensures { result ≡ value.cmpult a b }
{
    u64::from(a < b)
}

#[tactic(auto, unfolding(crate::specs::Values::cmpule))]
pub(crate) fn cmpule(a: u64, b: u64) -> u64
    ensures { result ≡ value.cmpule a b }
{
    u64::from(a <= b)
}

#[tactic(auto, unfolding(crate::specs::Values::cmpbge))]
pub(crate) fn cmpbge(a: u64, b: u64) -> u64
    ensures { result ≡ value.cmpbge a b }
{
    let mut bits: u64 = 0;
    for i in 0..8u32 {
        if (b >> (8 * i)) % 256 <= (a >> (8 * i)) % 256 {
            bits |= 1 << i;
        }
    }
    bits
}

// Operations on bytes: the byte mask, extract, insert and mask.
ghost use Rattle.std.specs.Prelude.{◌≡◌, ◌<◌, ◌≤◌, ◌+◌, ◌*◌, ◌^◌, ◌-◌, ◌%◌};
ghost use Rattle.word_ops.specs.Values as value;

use crate::bitwise::bis;

// Byte i is 255 where bit i of `mask` is 1, else 0.
pub(crate) fn byte_mask(mask: u64) -> u64
    ensures { result ≡ value.byte_mask mask }
{
    let mut kept: u64 = 0;
    for i in 0..8u32 {
        if (mask >> i) % 2 == 1 {
            kept |= 255 << (8 * i);
        }
    }
    kept
}

#[tactic(auto, unfolding(crate::specs::Values::zapnot))]
pub(crate) fn zapnot(a: u64, mask: u64) -> u64
    ensures { result ≡ value.zapnot a mask }
{
    a & byte_mask(mask)
}

#[tactic(auto, unfolding(crate::specs::Values::zap))]
pub(crate) fn zap(a: u64, mask: u64) -> u64
    ensures { result ≡ value.zap a mask }
{
    a & !byte_mask(mask)
}

pub(crate) fn width_mask(width: u32, b: u64) -> u64
    requires { width ≤ 8 }
    ensures value { result ≡ value.width_mask width b }
{
    ((1 << width) - 1) << (b % 8)
}

#[tactic(auto, unfolding(crate::specs::Values::ext_low))]
pub(crate) fn ext_low(width: u32, a: u64, b: u64) -> u64
    requires { width ≤ 8 }
    ensures { result ≡ value.ext_low width a b }
{
    let shifted = a >> (8 * (b % 8));
    if width < 8 {
        shifted % (1 << (8 * width))
    } else {
        shifted
    }
}

#[tactic(auto, unfolding(crate::specs::Values::ext_high))]
pub(crate) fn ext_high(width: u32, a: u64, b: u64) -> u64
    requires { width ≤ 8 }
    ensures { result ≡ value.ext_high width a b }
{
    let shifted = a << ((64 - 8 * (b % 8)) % 64);
    if width < 8 {
        shifted % (1 << (8 * width))
    } else {
        shifted
    }
}

#[tactic(auto, unfolding(crate::specs::Values::ins_low))]
pub(crate) fn ins_low(width: u32, a: u64, b: u64) -> u64
    requires { width ≤ 8 }
    ensures { result ≡ value.ins_low width a b }
{
    zapnot(a << (8 * (b % 8)), width_mask(width, b))
}

#[tactic(auto, unfolding(crate::specs::Values::ins_high))]
pub(crate) fn ins_high(width: u32, a: u64, b: u64) -> u64
    requires { width ≤ 8 }
    ensures { result ≡ value.ins_high width a b }
{
    zapnot(a >> ((64 - 8 * (b % 8)) % 64), width_mask(width, b) >> 8)
}

#[tactic(auto, unfolding(crate::specs::Values::msk_low))]
pub(crate) fn msk_low(width: u32, a: u64, b: u64) -> u64
    requires { width ≤ 8 }
    ensures { result ≡ value.msk_low width a b }
{
    zap(a, width_mask(width, b))
}

#[tactic(auto, unfolding(crate::specs::Values::msk_high))]
pub(crate) fn msk_high(width: u32, a: u64, b: u64) -> u64
    requires { width ≤ 8 }
    ensures { result ≡ value.msk_high width a b }
{
    zap(a, width_mask(width, b) >> 8)
}

#[tactic(auto, unfolding(crate::specs::Values::selectb))]
pub(crate) fn selectb(x: u64, y: u64) -> u64
    ensures { result ≡ value.selectb x y }
{
    (x >> (8 * (y % 8))) % 256
}

// The byte is cut out and put in.
#[tactic(auto, using(crate::proofs::StoredByte::storeb_by_masks))]
pub(crate) fn storeb(x: u64, y: u64, z: u64) -> u64
    ensures { result ≡ value.storeb x y z }
{
    bis(msk_low(1, x, y), ins_low(1, z, y))
}

// The opcodes of the instructions that are no operates.
ghost use Rattle.std.specs.Prelude.{◌≡◌, ◌<◌};
ghost use Rattle.alpha_encode.specs.Codes as codes;

use word_ops::Access;

pub(crate) const LDA: u32 = 0x08;

pub(crate) const LDAH: u32 = 0x09;

pub(crate) const LDBU: u32 = 0x0a;

pub(crate) const LDQ_U: u32 = 0x0b;

pub(crate) const LDWU: u32 = 0x0c;

pub(crate) const STW: u32 = 0x0d;

pub(crate) const STB: u32 = 0x0e;

pub(crate) const STQ_U: u32 = 0x0f;

pub(crate) const LDL: u32 = 0x28;

pub(crate) const LDQ: u32 = 0x29;

pub(crate) const STL: u32 = 0x2c;

pub(crate) const STQ: u32 = 0x2d;

pub(crate) const BEQ: u32 = 0x39;

pub(crate) fn load_opcode(access: Access) -> u32
    ensures { result ≡ codes.load_opcode access }
{
    match access {
        Access::Quad => LDQ_U,
        Access::Byte => LDBU,
        Access::Word => LDWU,
        Access::Long => LDL,
    }
}

pub(crate) fn store_opcode(access: Access) -> u32
    ensures { result ≡ codes.store_opcode access }
{
    match access {
        Access::Quad => STQ_U,
        Access::Byte => STB,
        Access::Word => STW,
        Access::Long => STL,
    }
}

// The instructions.
use word_ops::{Access, Operate};

/// The second operand of an operate.
#[derive(Clone, Copy)]
pub enum Second {
    Reg(u8),
    Literal(u8),
}

/// An instruction. `ra`, `rb` and `rc` are register numbers. A displacement is in bytes for `Lda`, loads and stores, in
/// units of 65536 bytes for `Ldah`, and for `Beq` in words from the word after it.
#[derive(Clone, Copy)]
pub enum Instr {
    Operate {
        op: Operate,
        ra: u8,
        second: Second,
        rc: u8,
    },
    Lda {
        ra: u8,
        rb: u8,
        disp: i16,
    },
    Ldah {
        ra: u8,
        rb: u8,
        disp: i16,
    },
    Load {
        access: Access,
        ra: u8,
        rb: u8,
        disp: i16,
    },
    Store {
        access: Access,
        ra: u8,
        rb: u8,
        disp: i16,
    },
    /// A load of the word at an address that is a multiple of 8.
    Ldq {
        ra: u8,
        rb: u8,
        disp: i16,
    },
    /// A store of a word at such an address.
    Stq {
        ra: u8,
        rb: u8,
        disp: i16,
    },
    Beq {
        ra: u8,
        disp: i32,
    },
}

// The kinds of computed rules.
ghost use Rattle.std.specs.Prelude.{◌≡◌, ◌≤◌};
ghost use Rattle.axiom_base.specs.Conditions.{constants_of, given_of};
ghost use Rattle.std.specs.Bool.{MatchBool};
ghost use Rattle.axiom_base.specs.Computed as rules;

/// A family of rules over a constant `c` and, in some, `d`: one rule for each choice of these that meets the family's
/// condition. In its right side stand `e` and, in some, `f`, which the constants give. Displacements are words that 16
/// bits with a sign can say; up to `C12`, sums, products and differences are modulo 2 ^ 64, and from `C13` on they are
/// those of natural numbers where nothing else is said.
#[derive(Clone, Copy, PartialEq, Eq)]
pub enum Calc {
    /// `addq x c` is `lda x e`, where c is a displacement that isn't 0 and e is c.
    C1,
    /// `addq x c` is `ldah x e`, where c is 65536 times the displacement e, which isn't 0.
    C2,
    /// `c` is `lda 0 e`, where c is a displacement that isn't 0 and e is c.
    C3,
    /// `c` is `ldah 0 e`, where c is 65536 times the displacement e, which isn't 0.
    C4,
    /// `c` is `lda e c`, where c is no displacement, its low 16 bits aren't all 0, and e, which is c less these bits
    /// extended by their sign, is 65536 times a displacement.
    C5,
    /// `mulq x c` is `sll x e`, where c is 2 to the power e, and e is 1 to 63.
    C6,
    /// `mulq x c` is `subq (sll x e) x`, where c + 1 is 2 to the power e, and e is 2 to 63.
    C7,
    /// `mulq x c` is `addq (sll x e) x`, where c - 1 is 2 to the power e, and e is 1 to 63.
    C8,
    /// `and x c` is `zapnot x e`, where each byte of c is 255 or 0 as that bit of e is 1 or 0.
    C9,
    /// `select (store m x v) (addq x c)` is `select m (addq x c)`, where c is 8 to 2 ^ 64 - 8.
    C10,
    /// `select (store m (addq x c) v) x` is `select m x`, where c is 8 to 2 ^ 64 - 8.
    C11,
    /// `select (store m (addq x c) v) (addq x d)` is `select m (addq x d)`, where d - c is 8 to 2 ^ 64 - 8.
    C12,
    /// `and x c` is `bic x e`, where e, which has each bit of c changed, is at most 255.
    C13,
    /// `bis x c` is `ornot x e`, with the same e.
    C14,
    /// `xor x c` is `eqv x e`, with the same e.
    C15,
    /// `c` is `zapnot (2 ^ 64 - 1) e`, where c and e are as in `C9`, and c is neither a displacement nor 65536 times
    /// one modulo 2 ^ 64.
    C16,
    /// `addq x c` is `lda (ldah x e) c`, where c is no displacement, its low 16 bits aren't all 0, and c less these
    /// bits extended by their sign is 65536 times the displacement e, modulo 2 ^ 64.
    C17,
    /// `and (srl x c) d` is `extbl x e`, where c is 8 e, e is at most 7, and d is 255.
    C18,
    /// `and (srl x c) d` is `extwl x e`, where c is 8 e, e is at most 7, and d is 65535.
    C19,
    /// `and (srl x c) d` is `extll x e`, where c is 8 e, e is at most 7, and d is 2 ^ 32 - 1.
    C20,
    /// `mulq x c` is `sll (mulq x e) f`, where c is e times 2 to the power f, e is odd and at least 3, and f is at
    /// least 1.
    C21,
    /// `mulq x c` is `s4subq y y`, where y is `mulq x e`, c is 3 e, and e is odd and at least 3.
    C22,
    /// `mulq x c` is `s4addq y y`, where y is `mulq x e`, c is 5 e, and e is odd and at least 3.
    C23,
    /// `mulq x c` is `s8subq y y`, where y is `mulq x e`, c is 7 e, and e is odd and at least 3.
    C24,
    /// `mulq x c` is `s8addq y y`, where y is `mulq x e`, c is 9 e, and e is odd and at least 3.
    C25,
    /// `mskbl (and x c) d` is `and x e`, where d is below 8 and e is `mskbl c d`.
    C26,
    /// `mskwl (and x c) d` is `and x e`, where d is below 8 and e is `mskwl c d`.
    C27,
    /// `mskll (and x c) d` is `and x e`, where d is below 8 and e is `mskll c d`.
    C28,
    /// `zapnot (srl x c) d` is `extbl x e`, where c is 8 e, e is at most 7, and d is 1.
    C29,
    /// `zapnot (srl x c) d` is `extwl x e`, where c is 8 e, e is at most 7, and d is 3.
    C30,
    /// `zapnot (srl x c) d` is `extll x e`, where c is 8 e, e is at most 7, and d is 15.
    C31,
    /// `mulq x c` is `addq (sll (mulq x e) f) x`, where c is odd, c - 1 is e times 2 to the power f, e is odd and at
    /// least 3, and f is at least 1.
    C32,
    /// `mulq x c` is `subq (sll (mulq x e) f) x`, where c is odd, c + 1 is e times 2 to the power f, e is odd and at
    /// least 3, and f is at least 1.
    C33,
    /// `mulq x c` is `neg (mulq x e)`, where c is above 2 ^ 63 and below 2 ^ 64 - 1, and e is 2 ^ 64 - c.
    C34,
    /// `c` is `sll e f`, where c is even and no left side of `C3`, `C4`, `C5` or `C16`, and as signed words c is e
    /// times 2 to the power f, with e odd.
    C35,
    /// `c` is `lda e c`, where c is no displacement, its low 16 bits aren't all 0, and e is c less these bits extended
    /// by their sign.
    C36,
    /// `c` is `zapnot e 15`, where c is 2 ^ 31 - 32768 to 2 ^ 32 - 1, and e is c + 2 ^ 64 - 2 ^ 32.
    C37,
}

/// The kinds that are asked for with every text, in the order of the enum.
pub const CALC_KINDS: [Calc; 12] = [
    Calc::C1,
    Calc::C2,
    Calc::C3,
    Calc::C4,
    Calc::C5,
    Calc::C6,
    Calc::C7,
    Calc::C8,
    Calc::C9,
    Calc::C10,
    Calc::C11,
    Calc::C12,
];

/// The kinds that a library has beside these, in the order of the enum.
pub const FURTHER_KINDS: [Calc; 25] = [
    Calc::C13,
    Calc::C14,
    Calc::C15,
    Calc::C16,
    Calc::C17,
    Calc::C18,
    Calc::C19,
    Calc::C20,
    Calc::C21,
    Calc::C22,
    Calc::C23,
    Calc::C24,
    Calc::C25,
    Calc::C26,
    Calc::C27,
    Calc::C28,
    Calc::C29,
    Calc::C30,
    Calc::C31,
    Calc::C32,
    Calc::C33,
    Calc::C34,
    Calc::C35,
    Calc::C36,
    Calc::C37,
];

/// What the constants of a rule give for its right side: `e`, and `f`, which is 0 for a kind that gives one.
#[derive(Clone, Copy)]
pub struct Given {
    pub e: u64,
    pub f: u64,
}

/// How many constants the kind's rules have: 1 or 2.
pub fn constants(kind: Calc) -> usize
    ensures count { result ≡ constants_of kind }
    ensures few { result ≤ 2 }
{
    match kind {
        Calc::C12
        | Calc::C18
        | Calc::C19
        | Calc::C20
        | Calc::C26
        | Calc::C27
        | Calc::C28
        | Calc::C29
        | Calc::C30
        | Calc::C31 => 2,
        _ => 1,
    }
}

/// The number of the variable that stands for `c`. The constants' variables are the last ones, so this is also how many
/// other variables there are: 0, 1 or 3.
pub fn first_constant(kind: Calc) -> usize
    ensures number { result ≡ rules.first_constant kind }
    ensures few { result ≤ 3 }
{
    match kind {
        Calc::C3 | Calc::C4 | Calc::C5 | Calc::C16 | Calc::C35 | Calc::C36 | Calc::C37 => 0,
        Calc::C10 | Calc::C11 | Calc::C12 => 3,
        _ => 1,
    }
}

/// Whether the kind's constants give two constants, and not one.
pub(crate) fn gives_two(kind: Calc) -> bool
    ensures { MatchBool result (given_of kind ≡ 2) (given_of kind ≡ 1) }
{
    matches!(kind, Calc::C21 | Calc::C32 | Calc::C33 | Calc::C35)
}

// The branch of a code.
ghost use Rattle.std.specs.Prelude.{◌≡◌, ◌<◌, IfSome};
ghost use Rattle.alpha_encode.specs.Decoded.{decoded};
ghost use Rattle.code_check.specs.Compared.{IsBranchOfWords, before_branch, branch_of};

use alpha_encode::{Instr, decode};

/// A branch, by its place among the words, and the register that it tests.
#[derive(Clone, Copy)]
pub(crate) struct Branch {
    pub at: usize,
    pub register: u8,
}

/// The register that the word tests, where it is a branch.
pub(crate) fn branch_register(word: u32) -> Option<u8>
    ensures branch { result ≡ branch_of (decoded word) }
    ensures low { IfSome result (λ register. register < 32) }
{
    match decode(word) {
        Some(Instr::Beq { ra, .. }) => Some(ra),
        _ => None,
    }
}

/// The first branch among the words.
pub(crate) fn find_branch(words: &[u32]) -> Option<Branch>
    ensures { IsBranchOfWords words.now result }
{
    for at in 0..words.len() {
        if let Some(register) = branch_register(words[at]) {
            return Some(Branch { at, register });
        }
    }
    None
}

/// How many words stand before the branch: all, where there is none.
pub(crate) fn words_before(words: &[u32], branch: Option<Branch>) -> usize
    ensures { result ≡ before_branch words.now branch }
{
    match branch {
        Some(branch) => branch.at,
        None => words.len(),
    }
}

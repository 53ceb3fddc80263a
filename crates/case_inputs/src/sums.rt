// What is said of a formula that was built: its counts, and a sum in which each literal counts.
use case_files::{Trouble, put_numbers};
use cnf_core::Cnf;
use cycle_encoding::{EncodeFault, Encoded};

/// What a sum is multiplied with before a number is added, so that the order of the numbers counts.
const FACTOR: u64 = 1000003;

/// A sum in which each literal and each end of a clause counts, and their order. A literal counts as twice its variable,
/// and one more where it is positive.
fn sum_of(cnf: &Cnf) -> u64 {
    let mut sum = 0u64;
    for index in 0..cnf.clauses() {
        for lit in cnf.clause(index + 1) {
            let code = u64::from(lit.var) * 2 + u64::from(lit.positive);
            sum = sum.wrapping_mul(FACTOR).wrapping_add(code);
        }
        sum = sum.wrapping_mul(FACTOR).wrapping_add(1);
    }
    sum
}

/// A line for a formula: its variables, its clauses and its sum; or the counts with which it was refused.
pub fn put_formula(
    report: &mut Vec<u8>,
    formula: Result<Encoded, EncodeFault>,
) -> Result<(), Trouble> {
    match formula {
        Ok(encoded) => {
            let cnf = &encoded.cnf;
            let counts = [u64::from(cnf.vars()), u64::from(cnf.clauses()), sum_of(cnf)];
            put_numbers(report, b"formula", &counts)
        }
        Err(EncodeFault::Size { vars, clauses }) => {
            put_numbers(report, b"size", &[vars, clauses])
        }
        Err(EncodeFault::Memory) => Err(Trouble::Memory),
    }
}

// The constants of classes, of which some have one.
ghost use Rattle.egraph.specs.Keys.{constant_at};
ghost use Rattle.egraph.specs.Steps.{moved};
ghost use Rattle.std.specs.Prelude.{◌≡◌, ◌≢◌, ◌<◌, ℕ, length, Some, MatchOption, OnOk, OnErr};

use items::NoMemory;

/// The constant of a class.
pub fn constant_of(constants: &[Option<u64>], class: u32) -> Option<u64>
    ensures { result ≡ constant_at constants.now class }
{
    match constants.get(class as usize) {
        Some(constant) => *constant,
        None => None,
    }
}

/// Gives the class another constant, or none.
pub fn put_constant(
    constants: &mut Vec<Option<u64>>,
    class: u32,
    constant: Option<u64>,
) -> Result<(), NoMemory>
    ensures put { OnOk result (constant_at constants.new.items class ≡ constant) }
    ensures others { (other : ℕ) → other ≢ class →
        constant_at constants.new.items other ≡ constant_at constants.old.items other }
    ensures err { OnErr result ((other : ℕ) →
        constant_at constants.new.items other ≡ constant_at constants.old.items other) }
{
    while constants.len() <= class as usize {
        constants.push(None)?;
    }
    constants[class as usize] = constant;
    Ok(())
}

/// The constants of two classes, where they differ.
pub fn find_two_constants(constants: &[Option<u64>], from: u32, to: u32) -> Option<(u64, u64)>
    ensures { MatchOption result
        ((x y : ℕ) → constant_at constants.now from ≡ Some x → constant_at constants.now to ≡ Some y → x ≡ y)
        (λ p. (constant_at constants.now from ≡ Some p.0) × (constant_at constants.now to ≡ Some p.1) × (p.0 ≢ p.1)) }
{
    let a = constant_of(constants, from)?;
    let b = constant_of(constants, to)?;
    if a == b { None } else { Some((a, b)) }
}

/// Gives the class `to` the constant of `from`, which then has none.
pub fn move_constant(constants: &mut Vec<Option<u64>>, from: u32, to: u32) -> Result<(), NoMemory>
    requires differ { from ≢ to }
    requires one { (x y : ℕ) → constant_at constants.old.items from ≡ Some x →
        constant_at constants.old.items to ≡ Some y → x ≡ y }
    ensures forth { OnOk result ((class x : ℕ) → constant_at constants.old.items class ≡ Some x →
        constant_at constants.new.items (moved from to class) ≡ Some x) }
    ensures back { OnOk result ((class x : ℕ) → constant_at constants.new.items class ≡ Some x →
        (before : ℕ) × (moved from to before ≡ class) × (constant_at constants.old.items before ≡ Some x)) }
{
    let constant = constant_of(constants, from);
    if constant.is_some() {
        put_constant(constants, to, constant)?;
        put_constant(constants, from, None)?;
    }
    Ok(())
}

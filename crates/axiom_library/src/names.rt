// Families by their names.
ghost use Rattle.std.specs.Prelude.{◌≡◌, find, bytes_eq};
ghost use Rattle.axiom_library.specs.Names as names;

use crate::families::{FAMILIES, Family};

/// The first of these families that has the name.
fn first_named(families: &[Family], name: &[u8]) -> Option<Family>
    ensures { result ≡ find (λ family. bytes_eq (names.family_name family) name.now) families.now }
{
    for family in families {
        if family.name() == name {
            return Some(*family);
        }
    }
    None
}

/// The family of this name.
#[tactic(auto, unfolding(crate::specs::Names::family_named))]
pub fn family_named(name: &[u8]) -> Option<Family>
    ensures { result ≡ names.family_named name.now }
{
    first_named(&FAMILIES, name)
}

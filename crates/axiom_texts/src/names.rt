// Families by their names.
ghost use Rattle.std.specs.Prelude.{◌≡◌, find, bytes_eq};
ghost use Rattle.axiom_library.specs.Names.{family_name};
ghost use Rattle.axiom_texts.specs.Written as families;

use axiom_library::Family;

/// The families that the program writes.
const WRITTEN: [Family; 9] = [
    Family::Bytes,
    Family::Products,
    Family::Sums,
    Family::Halves,
    Family::Extensions,
    Family::Rounding,
    Family::Comparisons,
    Family::Minima,
    Family::Carries,
];

/// The first of these families that has the name.
fn first_named(families: &[Family], name: &[u8]) -> Option<Family>
    ensures { result ≡ find (λ family. bytes_eq (family_name family) name.now) families.now }
{
    for family in families {
        if family.name() == name {
            return Some(*family);
        }
    }
    None
}

/// The family of this name, if the program writes it.
#[tactic(auto, unfolding(crate::specs::Written::written_named))]
pub(crate) fn written_named(name: &[u8]) -> Option<Family>
    ensures { result ≡ families.written_named name.now }
{
    first_named(&WRITTEN, name)
}

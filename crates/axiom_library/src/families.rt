// The families of rules.
ghost use Rattle.std.specs.Prelude.{◌≡◌, IfOk, map};
ghost use Rattle.goal_meaning.specs.Views.{axiom_view};
ghost use Rattle.axiom_library.specs.Families.{axioms_of};
ghost use Rattle.axiom_library.specs.Names.{family_name};

use crate::bytes::bytes;
use crate::carries::carries;
use crate::comparisons::comparisons;
use crate::fields::fields;
use crate::minima::minima;
use crate::products::products;
use crate::shifts::{extensions, rounding};
use crate::sums::{halves, sums};
use goal_meaning::Axiom;
use items::{Items, NoMemory};
use std::alloc::Global;

/// What the rules of a family rewrite.
#[derive(Clone, Copy, PartialEq, Eq)]
pub enum Family {
    /// Bytes packed, swapped and spread.
    Bytes,
    /// Products by constants.
    Products,
    /// Sums with a constant: in a text by its eighth, which is below 0x7fff8000, and else by two displacements.
    Sums,
    /// Sums with a constant below 0x7fff8000, by its two halves. The graph grows fast with it.
    Halves,
    /// Extensions with zeros or with the sign, written as shifts or by the sign's bit.
    Extensions,
    /// Rounding to a multiple of a power of 2.
    Rounding,
    /// Comparisons negated, and written by other operators.
    Comparisons,
    /// Minima, maxima and absolute values, written with masks.
    Minima,
    /// Carries of sums and borrows of differences.
    Carries,
    /// Bits kept, set and changed by a constant whose opposite is small, and constants that are masks of bytes.
    Masks,
    /// Bytes, pairs and halves taken out of a word, written as shifts and masks.
    Fields,
    /// Constants made in two or three instructions.
    Constants,
    /// Two bytes loaded and stored at any address, written with whole words.
    Unaligned,
}

/// All families, in their order.
pub const FAMILIES: [Family; 13] = [
    Family::Bytes,
    Family::Products,
    Family::Sums,
    Family::Halves,
    Family::Extensions,
    Family::Rounding,
    Family::Comparisons,
    Family::Minima,
    Family::Carries,
    Family::Masks,
    Family::Fields,
    Family::Constants,
    Family::Unaligned,
];

impl Family {
    /// The word that asks for the family.
    pub fn name(self) -> &'static [u8]
        ensures { result.now ≡ family_name self }
    {
        match self {
            Family::Bytes => b"bytes",
            Family::Products => b"products",
            Family::Sums => b"sums",
            Family::Halves => b"halves",
            Family::Extensions => b"extensions",
            Family::Rounding => b"rounding",
            Family::Comparisons => b"comparisons",
            Family::Minima => b"minima",
            Family::Carries => b"carries",
            Family::Masks => b"masks",
            Family::Fields => b"fields",
            Family::Constants => b"constants",
            Family::Unaligned => b"unaligned",
        }
    }
}

/// The axioms of a family, in the order of its list.
pub fn axioms(alloc: Global, family: Family) -> Result<Items<Axiom>, NoMemory>
    ensures { IfOk result (λ axioms. map axiom_view axioms ≡ axioms_of family) }
{
    Ok(Items::from(match family {
        Family::Bytes => bytes(alloc)?,
        Family::Products => products(alloc)?,
        Family::Sums => sums(alloc)?,
        Family::Halves => halves(alloc)?,
        Family::Extensions => extensions(alloc)?,
        Family::Rounding => rounding(alloc)?,
        Family::Comparisons => comparisons(alloc)?,
        Family::Minima => minima(alloc)?,
        Family::Carries => carries(alloc)?,
        Family::Fields => fields(alloc)?,
        Family::Masks | Family::Constants | Family::Unaligned => Vec::new(alloc),
    }))
}

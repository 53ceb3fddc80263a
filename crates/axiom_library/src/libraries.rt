// A library: the families whose rules are asked for.
ghost use Rattle.std.specs.Prelude.{◌≡◌};
ghost use Rattle.axiom_library.specs.Libraries.{all_but_halves, has_family, no_library, with_family};

use crate::families::Family;

/// Which families are asked for.
#[derive(Clone, Copy)]
pub struct Library {
    bytes: bool,
    products: bool,
    sums: bool,
    halves: bool,
    extensions: bool,
    rounding: bool,
    comparisons: bool,
    minima: bool,
    carries: bool,
    masks: bool,
    fields: bool,
    constants: bool,
    unaligned: bool,
}

impl Library {
    /// No family is asked for.
    pub fn none() -> Library
        ensures { result ≡ no_library }
    {
        Library {
            bytes: false,
            products: false,
            sums: false,
            halves: false,
            extensions: false,
            rounding: false,
            comparisons: false,
            minima: false,
            carries: false,
            masks: false,
            fields: false,
            constants: false,
            unaligned: false,
        }
    }

    /// All families but `Halves`.
    pub fn all() -> Library
        ensures { result ≡ all_but_halves }
    {
        Library {
            bytes: true,
            products: true,
            sums: true,
            halves: false,
            extensions: true,
            rounding: true,
            comparisons: true,
            minima: true,
            carries: true,
            masks: true,
            fields: true,
            constants: true,
            unaligned: true,
        }
    }

    /// The library with one more family. One that it has may be asked for again.
    pub fn with(self, family: Family) -> Library
        ensures { result ≡ with_family self family }
    {
        let mut library = self;
        match family {
            Family::Bytes => library.bytes = true,
            Family::Products => library.products = true,
            Family::Sums => library.sums = true,
            Family::Halves => library.halves = true,
            Family::Extensions => library.extensions = true,
            Family::Rounding => library.rounding = true,
            Family::Comparisons => library.comparisons = true,
            Family::Minima => library.minima = true,
            Family::Carries => library.carries = true,
            Family::Masks => library.masks = true,
            Family::Fields => library.fields = true,
            Family::Constants => library.constants = true,
            Family::Unaligned => library.unaligned = true,
        }
        library
    }

    /// Whether the family is asked for.
    pub fn has(self, family: Family) -> bool
        ensures { result ≡ has_family self family }
    {
        match family {
            Family::Bytes => self.bytes,
            Family::Products => self.products,
            Family::Sums => self.sums,
            Family::Halves => self.halves,
            Family::Extensions => self.extensions,
            Family::Rounding => self.rounding,
            Family::Comparisons => self.comparisons,
            Family::Minima => self.minima,
            Family::Carries => self.carries,
            Family::Masks => self.masks,
            Family::Fields => self.fields,
            Family::Constants => self.constants,
            Family::Unaligned => self.unaligned,
        }
    }
}

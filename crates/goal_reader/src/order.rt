// The order of the lists of a goal, or of a text, and how many of each there may be.
ghost use Rattle.std.specs.Prelude.{◌≡◌, ◌≤◌, ◌<◌, ◌^◌, ◌++◌, ◌∷◌, [], ℕ, List, length, Some};
ghost use Rattle.forms.specs.Forms.{Form};
ghost use Rattle.goal_reader.specs.Roles.{rank, of_rank};
ghost use Rattle.goal_reader.specs.declared.order.Admission.TheVariants as admissions;
ghost use Rattle.goal_reader.specs.Order.{IsOrderOf, IsAdmission};

/// Whether a list may come next, behind the lists before it.
#[derive(Clone, Copy, PartialEq, Eq)]
pub enum Admission {
    /// A list whose keyword comes later in the order stands before it.
    OutOfOrder,
    /// There are already as many lists of its keyword as are allowed.
    Beyond,
    Admitted,
}

/// The last keyword that was read, by its number, and how many lists of it.
#[derive(Clone, Copy)]
pub struct Order {
    pub last: usize,
    pub count: usize,
}

impl Order {
    pub fn new() -> Order
        ensures { (keywords : List (List ℕ)) → IsOrderOf keywords [] result }
    {
        Order { last: 0, count: 0 }
    }

    /// Whether a list with keyword number `at` may come next, where at most `most` of these are allowed.
    pub fn admits(&self, at: usize, most: usize) -> Admission
        ensures admission { (keywords : List (List ℕ)) (before : List Form) → IsOrderOf keywords before self.now
            → IsAdmission keywords before at most result }
        ensures next { result ≡ admissions.Admitted → (self.now.last ≤ at) × (at ≡ self.now.last
            → self.now.count < most) }
    {
        if at < self.last {
            return Admission::OutOfOrder;
        }
        let count = if at == self.last { self.count } else { 0 };
        if most <= count {
            return Admission::Beyond;
        }
        Admission::Admitted
    }

    /// The order after one more list, which is admitted.
    pub fn after(self, at: usize) -> Order
        requires later { self.last ≤ at }
        requires few { at ≡ self.last → self.count < 2 ^ 32 }
        ensures { (keywords : List (List ℕ)) (before : List Form) (form : Form) → IsOrderOf keywords before self
            → rank keywords form ≡ Some at → IsOrderOf keywords (before ++ form ∷ []) result }
    {
        if at == self.last {
            return Order {
                last: at,
                count: self.count + 1,
            };
        }
        Order { last: at, count: 1 }
    }
}

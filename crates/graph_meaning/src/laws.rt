// What is true of each launch graph. The calls do nothing: their clauses hold of all graphs.
ghost use Rattle.std.specs.Prelude.{◌≡◌, ◌≢◌, ◌<◌, ◌≤◌, ◌%◌, ◌^◌, ℕ, List, All, AllPairs, Any, Contains, IfSome, Some, None, length, slice_index, true};
ghost use Rattle.word_ops.specs.Meanings.{as_word, sort_of, constant_in};
ghost use Rattle.word_ops.specs.Values.{lda};
ghost use Rattle.word_ops.specs.Words.{IsWord};
ghost use Rattle.word_ops.specs.Worlds.{Value, World, IsValue, word};
ghost use Rattle.word_ops.specs.declared.sorts.Sort.{Sort as SortOf};
ghost use Rattle.word_ops.specs.declared.sorts.Sort.TheVariants as sorts;
ghost use Rattle.graph_meaning.specs.Graphs.{AreTrueRows, HaveOwnPins, IsProper, IsTrueUnder, constant_of, input_register, memory_target, multiple_of};
ghost use Rattle.graph_meaning.specs.Multiples.{AreMultiplesOf, IsMultiple, IsShown, is_sum_multiple};
ghost use Rattle.graph_meaning.specs.WellFormed.{AreInOrder, IsLaunchGraph, ClassHasSort, TakesItsSorts};
ghost use Rattle.graph_meaning.specs.declared.graphs.LaunchRow.{LaunchRow as Row};
ghost use Rattle.graph_meaning.specs.declared.graphs.LaunchGraph.{LaunchGraph as Graph};

use word_ops::words_have_bits;

/// In a well-formed graph each class has one sort and at most one constant, its number is below the number of rows, and
/// a class with a constant or an input is a word.
pub fn graphs_are_consistent()
    ensures below { (g : Graph) → IsLaunchGraph g → All (λ r. r.class < length g.rows) g.rows }
    ensures all_below { (g : Graph) → IsLaunchGraph g
        → All (λ r. (r.class < length g.rows) × All (λ c. c < length g.rows) r.operands) g.rows }
    // what `known_multiples` asks of rows, before the graph has its multiples
    ensures rows_below { (g : Graph) → AreInOrder g.rows → All (TakesItsSorts g) g.rows
        → All (λ r. (r.class < length g.rows) × All (λ c. c < length g.rows) r.operands) g.rows }
    ensures classes { (g : Graph) (sort : SortOf) (class : ℕ) → IsLaunchGraph g
        → ClassHasSort g sort class → class < length g.rows }
    ensures own_sort { (g : Graph) → IsLaunchGraph g → All (λ r. ClassHasSort g (sort_of r.op) r.class) g.rows }
    ensures one_sort { (g : Graph) (sort other : SortOf) (class : ℕ) → IsLaunchGraph g
        → ClassHasSort g sort class → ClassHasSort g other class → sort ≡ other }
    ensures constant { (g : Graph) (row : Row) (n : ℕ) → IsLaunchGraph g → Contains g.rows row
        → constant_in row.op ≡ Some n → constant_of g row.class ≡ Some n }
    ensures constant_row { (g : Graph) (class n : ℕ) → constant_of g class ≡ Some n
        → Any (λ r. (r.class ≡ class) × (constant_in r.op ≡ Some n)) g.rows }
    ensures constant_word { (g : Graph) (class n : ℕ) → IsLaunchGraph g → constant_of g class ≡ Some n
        → IsWord n × ClassHasSort g sorts.Word class }
    ensures input { (g : Graph) (class register : ℕ) → input_register g class ≡ Some register
        → Any (λ i. (i.class ≡ class) × (i.reg ≡ register)) g.inputs }
    ensures no_input { (g : Graph) (class : ℕ) → input_register g class ≡ None
        → All (λ i. i.class ≢ class) g.inputs }
    ensures input_word { (g : Graph) (class register : ℕ) → IsLaunchGraph g → input_register g class ≡ Some register
        → (register < 31) × ClassHasSort g sorts.Word class }
    ensures memory_target { (g : Graph) → IsLaunchGraph g → ClassHasSort g sorts.Memory (memory_target g) }
{}

/// In a proper graph, the registers of the pool differ, are 0 to 30, and are no input's and no set's pin; the inputs'
/// registers differ and are 0 to 30. Pins are 0 to 30, and no two sets have one.
pub fn registers_are_apart()
    ensures differ { (g : Graph) → IsProper g → AllPairs (λ a b. a ≢ b) g.pool }
    ensures low { (g : Graph) → IsProper g → All (λ r. r < 31) g.pool }
    ensures inputs { (g : Graph) → IsProper g → All (λ i. ¬ Contains g.pool i.reg) g.inputs }
    ensures inputs_differ { (g : Graph) → IsProper g → AllPairs (λ i j. i.reg ≢ j.reg) g.inputs }
    ensures inputs_low { (g : Graph) → IsProper g → All (λ i. i.reg < 31) g.inputs }
    ensures own_pins { (g : Graph) → IsProper g → HaveOwnPins g.sets }
    ensures low_pins { (g : Graph) → IsProper g → All (λ s. IfSome s.pin (λ r. r < 31)) g.sets }
    ensures pins_apart { (g : Graph) → IsProper g → All (λ s. IfSome s.pin (λ r. ¬ Contains g.pool r)) g.sets }
{}

/// Where a graph is true in a world, each class has a value of its sort, equal to its constant if it has one, and to
/// the word in the register of its first input if it has one.
pub fn classes_have_values()
    ensures constant { (g : Graph) (world : World) (value : ℕ → Value) (class n : ℕ) → IsTrueUnder g world value
        → constant_of g class ≡ Some n → value class ≡ word n }
    ensures input { (g : Graph) (world : World) (value : ℕ → Value) (class register : ℕ) → IsTrueUnder g world value
        → input_register g class ≡ Some register → value class ≡ word (slice_index world.registers register) }
    ensures sort { (g : Graph) (world : World) (value : ℕ → Value) (sort : SortOf) (class : ℕ)
        → IsTrueUnder g world value → ClassHasSort g sort class → IsValue sort (value class) }
{}

/// Where rows are true, a class that they show to be a multiple of 2^n has a value that is one. No more than a multiple
/// of 8 is shown, and the greatest power that is shown is one number. So rows have one list of multiples.
pub fn classes_are_multiples()
    ensures shown { (rows : List Row) (world : World) (value : ℕ → Value) (class n : ℕ) → AreTrueRows world value rows
        → IsShown rows class n → as_word (value class) % 2 ^ n ≡ 0 }
    ensures few { (rows : List Row) (class n : ℕ) → IsShown rows class n → n ≤ 3 }
    ensures one { (rows : List Row) (class m n : ℕ) → IsMultiple rows class m → IsMultiple rows class n → m ≡ n }
    ensures one_list { (rows : List Row) (ms ns : List ℕ) → AreMultiplesOf rows ms → AreMultiplesOf rows ns → ms ≡ ns }
{
    words_have_bits();
}

/// Where a well-formed graph is true in a world, the value of a class, and the sum of a base and a displacement, are
/// multiples of each power of 2 of which they are known to be.
pub fn known_multiples_are_true()
    ensures class { (g : Graph) (world : World) (value : ℕ → Value) (class n : ℕ) → IsLaunchGraph g
        → IsTrueUnder g world value → n ≤ multiple_of g class → as_word (value class) % 2 ^ n ≡ 0 }
    ensures sum { (g : Graph) (world : World) (value : ℕ → Value) (n x k : ℕ) → IsLaunchGraph g
        → IsTrueUnder g world value → is_sum_multiple g n x k ≡ true
        → lda (as_word (value x)) (as_word (value k)) % 2 ^ n ≡ 0 }
{
    words_have_bits();
}

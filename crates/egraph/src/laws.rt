// Laws of the definitions, as contracts of functions that do nothing.
ghost use Rattle.std.specs.Prelude.{◌≡◌, ◌<◌, ◌≤◌, ℕ, List, length, slice_index, All, AllPairs, Contains};
ghost use Rattle.word_ops.specs.declared.sorts.Sort.{Sort as SortOf};
ghost use Rattle.word_ops.specs.declared.sorts.Sort.TheVariants as sorts;
ghost use Rattle.egraph.specs.declared.rows.Row.{Row as RowOf};
ghost use Rattle.egraph.specs.Graph.{Graph, IsGraph, Agree, AreMade, HasClass, HasConstant, HasRow, IsPresent, IsInserted, read_through};
ghost use Rattle.egraph.specs.Joined.{IsMerged};
ghost use Rattle.egraph.specs.Sorts.{IsOfSort, AreOfSorts, FitOperator, AreOfOneSort};

use word_terms::Operator;

/// The classes that a graph's rows name are present ones, and each class ever made is now in a class that has a row.
pub fn rows_name_present_classes<O: Operator>()
    ensures present { (g : Graph O) (c : ℕ) → IsGraph O.signature g → HasClass g c → IsPresent g c }
    ensures operands { (g : Graph O) (r : RowOf O) → IsGraph O.signature g → Contains g.rows r →
        All (HasClass g) r.operands }
    ensures current { (g : Graph O) (c : ℕ) → IsGraph O.signature g → c < length g.current →
        HasClass g (slice_index g.current c) }
    ensures one_row { (rows : List (RowOf O)) (r t : RowOf O) → AllPairs (λ x y. ¬ Agree x y) rows →
        Contains rows r → Contains rows t → Agree r t → r ≡ t }
{}

/// A class is of one sort, which each of its rows gives, and an operand is of the sort that its row's operator takes
/// there. Classes of the sorts that an operator takes may be its operands, and two classes of one sort may be merged.
pub fn classes_have_one_sort<O: Operator>()
    ensures rows { (g : Graph O) (r : RowOf O) → IsGraph O.signature g → Contains g.rows r →
        IsOfSort O.signature g r.class (O.signature.sort r.op) }
    ensures constants { (g : Graph O) (c x : ℕ) → IsGraph O.signature g → HasConstant O.signature g.rows c x →
        IsOfSort O.signature g c sorts.Word }
    ensures operands { (g : Graph O) (r : RowOf O) (at : ℕ) → IsGraph O.signature g → Contains g.rows r →
        at < length r.operands → IsOfSort O.signature g (slice_index r.operands at) (O.signature.operand_sort r.op at) }
    ensures one { (g : Graph O) (c : ℕ) (sort other : SortOf) → IsGraph O.signature g →
        IsOfSort O.signature g c sort → IsOfSort O.signature g c other → sort ≡ other }
    ensures made { (g : Graph O) (sort_at : ℕ → SortOf) (classes : List ℕ) →
        AreOfSorts O.signature g sort_at classes → AreMade g.current classes }
    ensures fit { (g : Graph O) (op : O) (classes : List ℕ) → IsGraph O.signature g →
        AreOfSorts O.signature g (O.signature.operand_sort op) classes → FitOperator O.signature g op classes }
    ensures merge { (g : Graph O) (a b : ℕ) (sort : SortOf) → IsGraph O.signature g →
        IsOfSort O.signature g a sort → IsOfSort O.signature g b sort → AreOfOneSort O.signature g a b }
{}

/// An insert keeps all rows and classes, and the row that it was asked for is there.
pub fn inserts_keep_rows<O: Operator>()
    ensures longer { (old : Graph O) (op : O) (operands : List ℕ) (class : ℕ) (new : Graph O) →
        IsInserted old op operands class new → length old.current ≤ length new.current }
    ensures current { (old : Graph O) (op : O) (operands : List ℕ) (class : ℕ) (new : Graph O) →
        IsInserted old op operands class new →
        (c : ℕ) → c < length old.current → slice_index new.current c ≡ slice_index old.current c }
    ensures rows { (old : Graph O) (op : O) (operands : List ℕ) (class : ℕ) (new : Graph O) →
        IsInserted old op operands class new → (r : RowOf O) → Contains old.rows r → Contains new.rows r }
    ensures row { (old : Graph O) (op : O) (operands : List ℕ) (class : ℕ) (new : Graph O) →
        IsInserted old op operands class new → HasRow new.rows op (read_through old operands) class }
{}

/// After a merge each class is in the same class as the one that it was in before, and that class has a row.
pub fn merges_keep_classes<O: Operator>()
    ensures again { (old : Graph O) (a b : ℕ) (new : Graph O) → IsGraph O.signature old → IsMerged old a b new →
        (c : ℕ) → c < length old.current →
        slice_index new.current (slice_index old.current c) ≡ slice_index new.current c }
    ensures has { (old : Graph O) (a b : ℕ) (new : Graph O) → IsMerged old a b new →
        (c : ℕ) → HasClass old c → HasClass new (slice_index new.current c) }
{}

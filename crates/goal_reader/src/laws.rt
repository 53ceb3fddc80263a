// What holds of all texts of goals. The calls do nothing: their clauses are laws.
ghost use Rattle.std.specs.Prelude.{◌≡◌, ◌≢◌, ◌<◌, ◌≤◌, ◌+◌, ◌*◌, ◌^◌, ℕ, List, [], AllPairs, Option, Some, false, slice_get, length};
ghost use Rattle.std.specs.List.{list_any};
ghost use Rattle.forms.specs.Forms.{Form, Stands, forms_of, forms_list};
ghost use Rattle.forms.specs.Printing.{plain_of};
ghost use Rattle.goal_reader.specs.Grammar.{IsFirstTextFault, Reads};
ghost use Rattle.goal_meaning.specs.InputForms.{naming, term_plain};
ghost use Rattle.goal_meaning.specs.Names.{IsNamedInput};
ghost use Rattle.goal_reader.specs.Printing.{input_text};
ghost use Rattle.goal_reader.specs.GoalTerms.{AreInputs, IsReadTerm, IsTextOfTerm, term_scope, term_text};
ghost use Rattle.goal_reader.specs.Roles.{IsFaultAs, IsTextFault, WritesTerm, is_of_rank, term, text_keywords};
ghost use Rattle.goal_reader.specs.Terms.{Writes};
ghost use Rattle.goal_reader.specs.declared.scopes.Scope.{Scope};
ghost use Rattle.goal_meaning.specs.declared.goals.InputReg.{InputReg};
ghost use Rattle.word_ops.specs.declared.sorts.Op.{Op};
ghost use Rattle.word_ops.specs.declared.sorts.Sort.{Sort};
ghost use Rattle.word_terms.specs.Keys.{op_signature};
ghost use Rattle.word_terms.specs.OperatorsIn.{EachOperator, operators_in};
ghost use Rattle.word_terms.specs.Sorting.{HasSort};
ghost use Rattle.word_terms.specs.Tree.{Tree};
ghost use Rattle.goal_reader.specs.TextFaults.{IsFormFault, role_at, AreClear};
ghost use Rattle.goal_meaning.specs.Views.{InputTree};
ghost use Rattle.goal_meaning.specs.WellFormed.{IsInput, IsOfGoal, input_registers, operators_of_input};
ghost use Rattle.text_core.specs.Faults.{IsFirst};
ghost use Rattle.text_core.specs.Places.{ArePlaced};
ghost use Rattle.text_core.specs.Trees.{SexpTrees};
ghost use Rattle.text_core.specs.declared.faults.Kind.TheVariants.{BadForm};
ghost use Rattle.text_core.specs.declared.faults.Kind.{Kind};

use forms::{one_reading, printed_lines_are_read};
use machine_table::{one_table, printed_tables_are_read, tables_keep_limits};
use text_core::one_lexing;

/// A text has at most one first fault.
pub fn texts_have_one_first_fault()
    ensures { (text : List ℕ) (place other : ℕ) (kind another : Kind)
        → IsFirstTextFault text place kind → IsFirstTextFault text other another
        → (place ≡ other) × (kind ≡ another) }
{
    one_reading();
}

/// A text has at most one reading, and a text with a reading has no fault.
pub fn texts_have_one_reading()
    ensures once { (text : List ℕ) (input other : InputTree) → Reads text input → Reads text other → input ≡ other }
    ensures apart { (text : List ℕ) (input : InputTree) (place : ℕ) (kind : Kind)
        → Reads text input → IsFirstTextFault text place kind → ⊥ }
{
    one_reading();
    one_table();
}

/// The first form with a fault has the text's first fault. If no form is faulty, the only fault left is a missing goal,
/// at the end of the text.
pub fn the_first_form_decides()
    ensures forms { (text : List ℕ) (trees : SexpTrees) → ArePlaced 0 (length text) trees
        → (at : ℕ) (form : Form) (place : ℕ) (kind : Kind)
        → slice_get (forms_list (forms_of text trees)) at ≡ Some form
        → AreClear (forms_list (forms_of text trees)) at
        → IsFirst (IsFormFault (role_at (forms_list (forms_of text trees)) at form) form) place kind
        → IsFirst (IsTextFault (length text) (forms_list (forms_of text trees))) place kind }
    ensures lacks { (text : List ℕ) (trees : SexpTrees) → ArePlaced 0 (length text) trees
        → AreClear (forms_list (forms_of text trees)) (length (forms_list (forms_of text trees)))
        → list_any (is_of_rank text_keywords 3) (forms_list (forms_of text trees)) ≡ false
        → IsFirst (IsTextFault (length text) (forms_list (forms_of text trees))) (length text) BadForm }
{}

/// The canonical text of an input that was read is read as that input again. All its names are well-formed names.
pub fn printed_inputs_are_read()
    ensures read { (text : List ℕ) (input : InputTree) → Reads text input → Reads (input_text input) input }
    ensures named { (text : List ℕ) (input : InputTree) → Reads text input → IsNamedInput input }
{
    one_lexing();
    printed_lines_are_read();
    printed_tables_are_read();
}

/// A text has at least five bytes for every four operators in its terms: each operand takes a byte at least, and an
/// operator, which has at most four operands, takes a parenthesis beside its name.
pub fn read_inputs_have_few_operators()
    ensures { (text : List ℕ) (input : InputTree) → Reads text input → 5 * operators_of_input input ≤ 4 * length text }
{
    one_reading();
}

/// The input that a text of fewer than 2^29 bytes is read as is well formed.
pub fn read_inputs_are_well_formed()
    ensures { (text : List ℕ) (input : InputTree) → length text < 2 ^ 29 → Reads text input → IsInput input }
{
    one_lexing();
    tables_keep_limits();
    printed_tables_are_read();
    read_inputs_have_few_operators();
}

/// A form writes at most one term, and a form that writes one has no fault.
pub fn terms_have_one_reading()
    ensures once { (scope : Scope) (wanted : Option Sort) (form : Form) (t u : Tree Op)
        → WritesTerm scope wanted form t → WritesTerm scope wanted form u → t ≡ u }
    ensures clear { (scope : Scope) (wanted : Option Sort) (form : Form) (t : Tree Op) (place : ℕ) (kind : Kind)
        → WritesTerm scope wanted form t → IsFaultAs (term scope wanted) form place kind → ⊥ }
{}

/// A term that was read over inputs has its sort and no operators but the built-in ones and these inputs. Its form is
/// that of its canonical text, and takes five bytes at least for each four operators.
pub fn read_terms_are_well_sorted()
    ensures sorted { (inputs : List InputReg) (sort : Sort) (t : Tree Op) → IsReadTerm inputs sort t
        → HasSort op_signature [] sort t }
    ensures operators { (inputs : List InputReg) (sort : Sort) (t : Tree Op) → IsReadTerm inputs sort t
        → EachOperator (IsOfGoal [] inputs) t }
    ensures printed { (inputs : List InputReg) (sort : Sort) (form : Form) (t : Tree Op)
        → AllPairs (λ a b. a ≢ b) (input_registers inputs) → Writes (term_scope inputs) sort form t
        → plain_of form ≡ term_plain (naming [] inputs []) t }
    ensures few { (inputs : List InputReg) (sort : Sort) (form : Form) (t : Tree Op) (low high : ℕ)
        → Writes (term_scope inputs) sort form t → Stands low high form
        → 4 * low + 5 * operators_in t ≤ 4 * high + 1 }
{
    one_lexing();
}

/// The canonical text of a term that was read over inputs has that term alone.
pub fn printed_terms_are_read()
    ensures { (inputs : List InputReg) (sort : Sort) (t : Tree Op) → AreInputs inputs → IsReadTerm inputs sort t
        → IsTextOfTerm (term_text inputs t) inputs sort t }
{
    one_lexing();
    printed_lines_are_read();
}

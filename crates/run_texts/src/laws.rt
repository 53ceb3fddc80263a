// What is true of each program's text and report. The calls do nothing: their clauses hold of all texts.
ghost use Rattle.std.specs.Prelude.{◌≡◌, ◌≢◌, ◌<◌, ◌/◌, ℕ, List, All, slice_index};
ghost use Rattle.word_ops.specs.Memory.{word_at};
ghost use Rattle.text_core.specs.declared.faults.Kind.{Kind};
ghost use Rattle.run_texts.specs.RunFaults.{ReadsRun, IsRunFault};
ghost use Rattle.run_texts.specs.Reports.{IsRunReport, CanRun, start_state};
ghost use Rattle.run_texts.specs.declared.texts.RunText.{RunText as Program};

use text_core::one_splitting;
use word_ops::memories_hold_words;

/// A text is at most one program, which can be run, and a text that is one has no fault. There is at most one first
/// fault.
pub fn one_program()
    ensures program { (text : List ℕ) (run other : Program) → ReadsRun text run → ReadsRun text other → run ≡ other }
    ensures runnable { (text : List ℕ) (run : Program) → ReadsRun text run → CanRun run }
    ensures apart { (text : List ℕ) (run : Program) (place : ℕ) (kind : Kind)
        → ReadsRun text run → IsRunFault text place kind → ⊥ }
    ensures first { (text : List ℕ) (place other : ℕ) (kind another : Kind)
        → IsRunFault text place kind → IsRunFault text other another → (place ≡ other) × (kind ≡ another) }
{
    one_splitting();
}

/// A program starts with what its text gives: each register and each place of memory that it names holds its word, and
/// all others hold 0.
pub fn programs_start_as_given()
    ensures registers { (text : List ℕ) (run : Program) → ReadsRun text run
        → All (λ r. slice_index (start_state run).registers r.register ≡ r.word) run.registers }
    ensures other_registers { (run : Program) (register : ℕ) → register < 32
        → All (λ r. r.register ≢ register) run.registers → slice_index (start_state run).registers register ≡ 0 }
    ensures places { (text : List ℕ) (run : Program) → ReadsRun text run
        → All (λ p. word_at (start_state run).memory (p.address / 8) ≡ p.word) run.places }
    ensures other_places { (run : Program) (place : ℕ) → All (λ p. p.address / 8 ≢ place) run.places
        → word_at (start_state run).memory place ≡ 0 }
{
    memories_hold_words();
}

/// A program has at most one report.
pub fn one_report()
    ensures { (run : Program) (bytes others : List ℕ)
        → IsRunReport run bytes → IsRunReport run others → bytes ≡ others }
{}

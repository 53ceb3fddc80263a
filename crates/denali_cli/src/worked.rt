// What some words ask for, by the definitions.
ghost use Rattle.std.specs.Prelude.{◌≡◌, [], ◌∷◌, None, Some, codes, true};
ghost use Rattle.pick_rule.specs.declared.pick.Pick.TheVariants.{Last, Busy, Activity};
ghost use Rattle.axiom_library.specs.Libraries.{all_but_halves, no_library};
ghost use Rattle.denali_cli.specs.Commands.{Solve, SolveLeast, Proc, Check, CheckLeast, Trim, Verify, Run, Gen, Cnf, Improve};
ghost use Rattle.denali_cli.specs.OptionValues.{no_options, settings_of};
ghost use Rattle.denali_cli.specs.Said.{command_of};
ghost use Rattle.denali_cli.specs.Spellings.{spelled_command};

/// Other spellings mean what clap makes of them, and plain forms mean the same to clap.
pub fn worked_words()
    ensures joined { command_of (codes "solve" ∷ codes "--rounds=3" ∷ codes "--pick=first" ∷ [])
        ≡ Some (Solve (settings_of no_library (record no_options { rounds = Some 3 }))) }
    ensures picks_last { command_of (codes "solve" ∷ codes "--pick" ∷ codes "last" ∷ [])
        ≡ Some (Solve (settings_of no_library (record no_options { pick = Some Last }))) }
    ensures picks_busiest { command_of (codes "solve" ∷ codes "--pick=busy" ∷ [])
        ≡ Some (Solve (settings_of no_library (record no_options { pick = Some Busy }))) }
    ensures picks_active { command_of (codes "solve" ∷ codes "--pick" ∷ codes "activity" ∷ [])
        ≡ Some (Solve (settings_of no_library (record no_options { pick = Some Activity }))) }
    ensures improves { command_of (codes "improve" ∷ [])
        ≡ Some (Improve (settings_of all_but_halves (record no_options { pick = Some Activity; live = true }))) }
    ensures improves_as_picked { command_of (codes "improve" ∷ codes "--pick" ∷ codes "first" ∷ [])
        ≡ Some (Improve (settings_of all_but_halves (record no_options { live = true }))) }
    ensures mixed { command_of (codes "solve" ∷ codes "--cycles=0" ∷ codes "--nodes" ∷ codes "7" ∷ [])
        ≡ Some (Solve (settings_of no_library (record no_options { nodes = Some 7; cycles = Some 0 }))) }
    ensures dashes { command_of (codes "solve" ∷ codes "--conflicts" ∷ codes "5" ∷ codes "--" ∷ [])
        ≡ Some (Solve (settings_of no_library (record no_options { conflicts = Some 5 }))) }
    ensures plain { spelled_command (codes "solve" ∷ codes "--nodes" ∷ codes "7" ∷ codes "--rounds" ∷ codes "0" ∷ [])
        ≡ command_of (codes "solve" ∷ codes "--nodes" ∷ codes "7" ∷ codes "--rounds" ∷ codes "0" ∷ []) }
    ensures bare { spelled_command (codes "solve" ∷ []) ≡ command_of (codes "solve" ∷ []) }
    ensures links { command_of (codes "proc" ∷ codes "--cycles" ∷ codes "9" ∷ [])
        ≡ Some (Proc (settings_of no_library (record no_options { cycles = Some 9 }))) }
    ensures joined_cycles { command_of (codes "proc" ∷ codes "--cycles=9" ∷ [])
        ≡ Some (Proc (settings_of no_library (record no_options { cycles = Some 9 }))) }
    ensures checks { command_of (codes "check" ∷ []) ≡ Some Check }
    ensures checks_least { command_of (codes "check" ∷ codes "--least" ∷ []) ≡ Some CheckLeast }
    ensures solves_least { command_of (codes "solve" ∷ codes "--least" ∷ []) ≡ Some (SolveLeast (settings_of no_library no_options)) }
    ensures flag_among_pairs { command_of (codes "solve" ∷ codes "--nodes" ∷ codes "7" ∷ codes "--least" ∷ codes "--rounds" ∷ codes "3" ∷ [])
        ≡ Some (SolveLeast (settings_of no_library (record no_options { rounds = Some 3; nodes = Some 7 }))) }
    ensures flag_in_another_spelling { command_of (codes "solve" ∷ codes "--least" ∷ codes "--rounds=3" ∷ [])
        ≡ Some (SolveLeast (settings_of no_library (record no_options { rounds = Some 3 }))) }
    ensures plain_flag { spelled_command (codes "solve" ∷ codes "--rounds" ∷ codes "3" ∷ codes "--least" ∷ [])
        ≡ command_of (codes "solve" ∷ codes "--rounds" ∷ codes "3" ∷ codes "--least" ∷ []) }
    ensures solves_live { command_of (codes "solve" ∷ codes "--live" ∷ codes "--least" ∷ [])
        ≡ Some (SolveLeast (settings_of no_library (record no_options { live = true }))) }
    ensures links_live { command_of (codes "proc" ∷ codes "--cycles=9" ∷ codes "--live" ∷ [])
        ≡ Some (Proc (settings_of no_library (record no_options { cycles = Some 9; live = true }))) }
    ensures trims { command_of (codes "trim" ∷ []) ≡ Some Trim }
    ensures verifies { command_of (codes "verify" ∷ []) ≡ Some (Verify 4 512 no_library) }
    ensures joined_rounds { command_of (codes "verify" ∷ codes "--rounds=3" ∷ []) ≡ Some (Verify 3 512 no_library) }
    ensures rounds_and_rows { command_of (codes "verify" ∷ codes "--nodes" ∷ codes "7" ∷ codes "--rounds" ∷ codes "0" ∷ [])
        ≡ Some (Verify 0 7 no_library) }
    ensures runs { command_of (codes "run" ∷ []) ≡ Some Run }
    ensures runs_behind_dashes { command_of (codes "run" ∷ codes "--" ∷ []) ≡ Some Run }
    ensures generates { command_of (codes "gen" ∷ []) ≡ Some (Gen 10) }
    ensures generates_size { command_of (codes "gen" ∷ codes "--size" ∷ codes "3" ∷ []) ≡ Some (Gen 3) }
    ensures joined_size { command_of (codes "gen" ∷ codes "--size=3" ∷ []) ≡ Some (Gen 3) }
    ensures clauses { command_of (codes "cnf" ∷ []) ≡ Some (Cnf 1 8) }
    ensures clauses_of_goal { command_of (codes "cnf" ∷ codes "--goal" ∷ codes "2" ∷ []) ≡ Some (Cnf 2 8) }
    ensures clauses_for_cycles { command_of (codes "cnf" ∷ codes "--cycles" ∷ codes "0" ∷ []) ≡ Some (Cnf 1 0) }
    ensures clauses_of_both { command_of (codes "cnf" ∷ codes "--cycles" ∷ codes "4" ∷ codes "--goal" ∷ codes "2" ∷ [])
        ≡ Some (Cnf 2 4) }
    ensures joined_clauses { command_of (codes "cnf" ∷ codes "--goal=2" ∷ codes "--cycles" ∷ codes "4" ∷ [])
        ≡ Some (Cnf 2 4) }
{}

/// Requests for help, words that clap refuses, and values out of range ask for nothing.
pub fn refused_words()
    ensures picks_nothing_else { command_of (codes "solve" ∷ codes "--pick" ∷ codes "middle" ∷ []) ≡ None }
    ensures no_flag_of_procs { command_of (codes "proc" ∷ codes "--least" ∷ []) ≡ None }
    ensures checks_least_once { command_of (codes "check" ∷ codes "--least" ∷ codes "--least" ∷ []) ≡ None }
    ensures flag_twice { command_of (codes "solve" ∷ codes "--least" ∷ codes "--least" ∷ []) ≡ None }
    ensures live_twice { command_of (codes "solve" ∷ codes "--live" ∷ codes "--live" ∷ []) ≡ None }
    ensures live_anyway { command_of (codes "improve" ∷ codes "--live" ∷ []) ≡ None }
    ensures flag_with_value { command_of (codes "solve" ∷ codes "--least=true" ∷ []) ≡ None }
    ensures no_flag_of_codes { command_of (codes "verify" ∷ codes "--least" ∷ []) ≡ None }
    ensures no_option_of_checks { command_of (codes "check" ∷ codes "--cycles=3" ∷ []) ≡ None }
    ensures no_option_of_trims { command_of (codes "trim" ∷ codes "--cycles=3" ∷ []) ≡ None }
    ensures no_cycles_of_codes { command_of (codes "verify" ∷ codes "--cycles" ∷ codes "3" ∷ []) ≡ None }
    ensures no_option_of_runs { command_of (codes "run" ∷ codes "--rounds" ∷ codes "3" ∷ []) ≡ None }
    ensures no_goal_0 { command_of (codes "cnf" ∷ codes "--goal" ∷ codes "0" ∷ []) ≡ None }
    ensures goal_twice { command_of (codes "cnf" ∷ codes "--goal" ∷ codes "1" ∷ codes "--goal" ∷ codes "1" ∷ []) ≡ None }
    ensures no_options_of_solve { command_of (codes "gen" ∷ codes "--rounds" ∷ codes "3" ∷ []) ≡ None }
    ensures size_below { command_of (codes "gen" ∷ codes "--size" ∷ codes "0" ∷ []) ≡ None }
    ensures size_above { command_of (codes "gen" ∷ codes "--size=21" ∷ []) ≡ None }
    ensures size_twice { command_of (codes "gen" ∷ codes "--size=3" ∷ codes "--size=3" ∷ []) ≡ None }
    ensures out_of_range { command_of (codes "solve" ∷ codes "--rounds=17" ∷ []) ≡ None }
    ensures leading_zero { command_of (codes "solve" ∷ codes "--rounds=03" ∷ []) ≡ None }
    ensures no_value { command_of (codes "solve" ∷ codes "--rounds" ∷ []) ≡ None }
    ensures empty_value { command_of (codes "solve" ∷ codes "--rounds=" ∷ []) ≡ None }
    ensures twice { command_of (codes "solve" ∷ codes "--rounds=3" ∷ codes "--rounds" ∷ codes "3" ∷ []) ≡ None }
    ensures word_after_dashes { command_of (codes "solve" ∷ codes "--" ∷ codes "x" ∷ []) ≡ None }
    ensures no_words { command_of [] ≡ None }
    ensures no_command { command_of (codes "--rounds" ∷ codes "3" ∷ codes "solve" ∷ []) ≡ None }
    ensures other_command { command_of (codes "solved" ∷ []) ≡ None }
    ensures other_option { command_of (codes "solve" ∷ codes "--round=3" ∷ []) ≡ None }
    ensures help { command_of (codes "--help" ∷ []) ≡ None }
    ensures help_of { command_of (codes "solve" ∷ codes "--help" ∷ []) ≡ None }
    ensures short_help { command_of (codes "solve" ∷ codes "-h" ∷ []) ≡ None }
    ensures help_command { command_of (codes "help" ∷ codes "solve" ∷ []) ≡ None }
    ensures version { command_of (codes "--version" ∷ []) ≡ None }
{}

// What the definitions say of worked schedules.
ghost use Rattle.std.specs.Prelude.{◌++◌, ◌∷◌, [], true};
ghost use Rattle.schedule_meaning.specs.Fits.{Fits};
ghost use Rattle.schedule_meaning.specs.Broken.{IsFirstBroken};
ghost use Rattle.schedule_meaning.specs.Worked.{sum_graph, two_slots, sum_in_three, sum_in_two, sum_twice, copy_graph, copy_graph_with, free_copy_graph, at_slot, copy_at, copy_with, copy_without_branch, copy_without_store, copy_without_sum, copy_of_no_row, copy_stored_above, step_graph, step_in_one, exchange_graph, exchange_in_two, exchange_in_one, chain_graph, chain_at_once, chain_in_turn};
ghost use Rattle.machine_table.specs.Tables.{IsTable, ev6};
ghost use Rattle.schedule_meaning.specs.declared.schedules.Allocation.TheVariants.{Block, Live};

/// `(set x (xor (addq a b) a))` on two slots in two clusters: it fits in 3 cycles; in 2 the second launch comes before
/// its operand is seen in its cluster; and a launch that is given twice collides with itself. Then a loop that copies
/// words, and for each rule a list of its launches that breaks that rule first. Then pinned targets: a register that
/// is counted up in its place, and two registers that are exchanged. Then `(set x (addq (addq a 1) a))` with two
/// registers by live ranges, where the first sum is computed twice.
pub fn worked_schedules()
    ensures table { IsTable two_slots }

    ensures fits { Fits sum_graph two_slots Block 3 sum_in_three }
    ensures operand_too_early { IsFirstBroken sum_graph two_slots Block 2 sum_in_two 1 3 }
    ensures given_twice { IsFirstBroken sum_graph two_slots Block 3 sum_twice 1 2 }

    // A loop that copies words: compare, branch, load and store, on the Alpha 21264's own table.
    ensures copy_fits { Fits copy_graph ev6 Block 5 (copy_with 1 4) }
    ensures operand_of_the_store_too_early { IsFirstBroken copy_graph ev6 Block 5 (copy_with 1 0) 5 3 }
    ensures load_before_branch { IsFirstBroken copy_graph ev6 Block 5 (copy_with 0 4) 4 8 }
    ensures store_in_another_slot { IsFirstBroken copy_graph ev6 Block 5 copy_stored_above 5 1 }
    ensures row_past_the_branch { IsFirstBroken copy_graph ev6 Block 5 copy_of_no_row 3 1 }
    ensures store_too_late { IsFirstBroken copy_graph ev6 Block 4 (copy_with 1 4) 5 4 }
    ensures target_not_reached { IsFirstBroken copy_graph ev6 Block 5 copy_without_sum 5 5 }
    ensures memory_not_reached { IsFirstBroken copy_graph ev6 Block 5 copy_without_store 5 6 }
    ensures load_after_the_store { IsFirstBroken copy_graph ev6 Block 8 (copy_with 1 4 ++ at_slot 5 2 5 ∷ []) 6 6 }
    ensures two_stores_at_once { IsFirstBroken copy_graph ev6 Block 6 (copy_with 1 5 ++ at_slot 5 3 6 ∷ []) 6 6 }
    ensures no_branch { IsFirstBroken copy_graph ev6 Block 5 copy_without_branch 5 7 }
    ensures two_branches { IsFirstBroken copy_graph ev6 Block 6 (copy_with 1 4 ++ at_slot 2 0 10 ∷ []) 7 7 }
    ensures store_before_the_branch { IsFirstBroken free_copy_graph ev6 Block 6 (copy_at 5 1 4) 5 8 }
    ensures pool_too_small { IsFirstBroken (copy_graph_with true (0 ∷ 1 ∷ 2 ∷ [])) ev6 Block 6 (copy_with 1 4) 6 9 }

    // Where the guard holds no load, the load needn't wait for the branch.
    ensures free_copy_fits { Fits free_copy_graph ev6 Block 4 (copy_at 1 0 3) }

    // A launch may overwrite what it reads itself, but not what another that overwrites reads in the same cycle.
    ensures step_fits { Fits step_graph ev6 Block 1 step_in_one }
    ensures exchange_fits { Fits exchange_graph ev6 Block 2 exchange_in_two }
    ensures overwritten_before_read { IsFirstBroken exchange_graph ev6 Block 1 exchange_in_one 0 3 }

    // All launches of a class hold while it is needed, so computing a value again frees no register; when it has been
    // read, its register is free.
    ensures held_while_read { IsFirstBroken chain_graph ev6 Live 3 chain_at_once 3 9 }
    ensures free_when_read { Fits chain_graph ev6 Live 3 chain_in_turn }
{}

// What the definitions say of a worked schedule.
ghost use Rattle.std.specs.Prelude.{◌≡◌, ◌∷◌, [], map};
ghost use Rattle.alpha_encode.specs.Formats.{encoded};
ghost use Rattle.machine_table.specs.Tables.{ev6};
ghost use Rattle.schedule_meaning.specs.Worked.{chain_graph, chain_in_turn, copy_graph, copy_with, exchange_graph, exchange_in_two, step_graph, step_in_one, sum_graph, sum_in_three, two_slots};
ghost use Rattle.schedule_meaning.specs.declared.schedules.Allocation.TheVariants.{Block, Live};
ghost use Rattle.register_assign.specs.Listings.{items_of, wheres_of};

/// A loop that copies words, on the Alpha 21264's own table: its words, and the registers of its two word targets. Then
/// the same of a sum and an exclusive or on two slots, of a register that is counted up in its place, and of two
/// registers that are exchanged; and by live ranges of a sum of sums, where a register is given a second time.
pub fn worked_listing()
    ensures words { map (λ item. encoded item.instr) (items_of copy_graph ev6 Block (copy_with 1 4))
        ≡ 1108476832 ∷ 1107366913 ∷ 1109464066 ∷ 3825205251 ∷ 745537536 ∷ 1014038528 ∷ [] }
    ensures places { map (λ place. place.reg) (wheres_of copy_graph ev6 Block (copy_with 1 4)) ≡ 1 ∷ 2 ∷ [] }
    ensures sum_words { map (λ item. encoded item.instr) (items_of sum_graph two_slots Block sum_in_three)
        ≡ 1108411392 ∷ 1141901313 ∷ [] }
    ensures sum_places { map (λ place. place.reg) (wheres_of sum_graph two_slots Block sum_in_three) ≡ 1 ∷ [] }
    ensures step_words { map (λ item. encoded item.instr) (items_of step_graph ev6 Block step_in_one)
        ≡ 1107366928 ∷ [] }
    ensures step_places { map (λ place. place.reg) (wheres_of step_graph ev6 Block step_in_one) ≡ 16 ∷ [] }
    ensures exchange_words { map (λ item. encoded item.instr) (items_of exchange_graph ev6 Block exchange_in_two)
        ≡ 1206912000 ∷ 1206977552 ∷ 1205863441 ∷ [] }
    ensures exchange_places { map (λ place. place.reg) (wheres_of exchange_graph ev6 Block exchange_in_two)
        ≡ 16 ∷ 17 ∷ [] }
    ensures chain_words { map (λ item. encoded item.instr) (items_of chain_graph ev6 Live chain_in_turn)
        ≡ 1107309569 ∷ 1076888578 ∷ 1107309569 ∷ [] }
    ensures chain_places { map (λ place. place.reg) (wheres_of chain_graph ev6 Live chain_in_turn) ≡ 2 ∷ [] }
{}

// What holds of the texts of a report. No function here does anything.
ghost use Rattle.std.specs.Prelude.{◌≡◌, ◌<◌, ◌^◌, ℕ, List, Some};
ghost use Rattle.damon_types.specs.declared.space.Target.{Target as target};
ghost use Rattle.region_list.specs.Regions.{RegionList};
ghost use Rattle.scheme_engine.specs.Served.{slots_served};
ghost use Rattle.scheme_engine.specs.Slots.{SlotValue};
ghost use Rattle.serde_json.specs.Data.{Data};
ghost use Rattle.serde_json.specs.Read.{read};
ghost use Rattle.serde_json.specs.Written.{compact_text};
ghost use Rattle.snapshot_print.specs.Json.{aggregate_json, answer_json, end_json, show_json};
ghost use Rattle.snapshot_print.specs.Printed.{Printed as printed};
ghost use Rattle.snapshot_print.specs.Readable.{HasWords, IsOneLine};
ghost use Rattle.snapshot_print.specs.Schemes.{choices_by_slot, choices_text};
ghost use Rattle.snapshot_print.specs.StateText.{IsTextOfStates};

/// Once slots were served, the runs that come next for a choice are all runs of its slot. So in the text of
/// an aggregation each choice has all of them.
pub fn choices_have_all_their_runs()
    ensures { (slot aggr tick : ℕ) (space : List target) (regions : RegionList)
        (slots shown : List SlotValue)
        → let served = slots_served slot space aggr tick regions slots in
        choices_text space shown served.runs served.choices
        ≡ choices_by_slot space shown served.runs served.choices }
{}

/// The text of a report by states, in which each line is one expression over what the notes tell, is the
/// text that is printed: of a show in each state, and of an aggregation in the state after it.
pub fn texts_are_of_states()
    ensures { IsTextOfStates }
{}

/// Each line of a report as JSON, without its end, is read as the value of which it is the text. The
/// numbers are those of a monitor, which have at most 64 bits.
pub fn json_lines_are_read()
    ensures show { (p : printed) → HasWords (show_json p)
        → read (compact_text (show_json p)) ≡ Some (show_json p) }
    ensures aggregate { (p : printed) → HasWords (aggregate_json p)
        → read (compact_text (aggregate_json p)) ≡ Some (aggregate_json p) }
    ensures commit { (tick : ℕ) (answer : List ℕ) → tick < 2 ^ 64
        → read (compact_text (answer_json tick answer)) ≡ Some (answer_json tick answer) }
    ensures end { (p : printed) → HasWords (end_json p)
        → read (compact_text (end_json p)) ≡ Some (end_json p) }
{}

/// The text of a value whose numbers have at most 64 bits has no line end. So each line of a report as JSON
/// is one line of the text.
pub fn json_lines_are_one_line()
    ensures { (d : Data) → HasWords d → IsOneLine (compact_text d) }
{}

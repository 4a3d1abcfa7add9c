ghost use Rattle.blk_frame.specs.Laws.{FactsHold};

/// Does nothing: it stands for the laws that it names. Under each allowed placement the facts of a path hold of the
/// state of a run along it, from the entry on, behind each step of a line of the table and behind each further turn of
/// a repeated one; where they say that a register, a flag or an address has its value of the entry, it has; and where
/// no rule is broken, they say so of each place that has to be kept and of each address that is accessed (this
/// project's own).
#[tactic(auto, using(crate::proofs::FactsHeld::table_facts_held))]
pub fn facts_hold()
    ensures { FactsHold }
{}

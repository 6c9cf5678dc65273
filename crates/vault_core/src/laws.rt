//! Laws: what is asked of rows.
ghost use Rattle.std.specs.Prelude.{List};
ghost use Rattle.vault_core.specs.Questions.{listed, IsConsistent};

/// The questions that are asked of a list agree with one another.
pub fn questions_of_a_list_agree<A>()
    ensures { (rows : List A) → IsConsistent (listed rows) }
{}

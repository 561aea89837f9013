ghost use Rattle.std.specs.Prelude.{◌≡◌, [], ◌∷◌, ◌++◌, IsTrue};
ghost use Rattle.vn_cells.specs.declared.script.Script.{Script as AnyScript};
ghost use Rattle.vn_cells.specs.world.World.{stack_at, ifs_of};
ghost use Rattle.vn_cells.specs.machine.Step.{opening, run};
ghost use Rattle.vn_cells.specs.sets.Changed.{IsClosed};
ghost use Rattle.vn_cells.specs.texts.Schedule.{serial_run};
ghost use Rattle.vn_cells.specs.texts.Text.{text};
ghost use Rattle.vn_laws.specs.PairSets.{any_pair, loan, raised, pair_alone, jail_and_pair};
ghost use Rattle.vn_laws.specs.WorkedRows.{has_no_line, jail_a, jail_a_b, only, family, twice, no_parent_no_room, child, two_children, grandchild};
ghost use Rattle.vn_laws.specs.WorkedRows.{empty_text, twice_text, no_parent_no_room_text, two_children_text, grandchild_text};
ghost use Rattle.vn_laws.specs.WorkedReaders.{removed_unread, removed_read, lists, lists_at, listed};
ghost use Rattle.vn_laws.specs.WorkedReaders.{removed_unread_text, removed_read_text, listed_text, listed_host_text, listed_absent_text};
ghost use Rattle.vn_laws.specs.WorkedRows.{two_pairs, taken, lent, removes, two_pairs_text, taken_text, removed_text, ifs_lent, ifs_home};

/// A script without lines runs to the opening world; and some histories, with the text that they
/// leave octet for octet.
pub fn law_of_worked_rows()
    ensures no_line { (script : AnyScript) → IsTrue (has_no_line script) → serial_run script ≡ [] }
    ensures opening { run [] ≡ opening }
    ensures empty { text [] ≡ empty_text }
    ensures twice { text twice ≡ twice_text }
    ensures no_parent_no_room { text no_parent_no_room ≡ no_parent_no_room_text }
    ensures two_children { text two_children ≡ two_children_text }
    ensures grandchild { text grandchild ≡ grandchild_text }
{}

/// Pairs, with the texts that they leave: a second creation of a unit and one of any unit; names that
/// are taken where the pair of their unit is homed and where another half stands; and halves that come
/// home where a jail is removed, behind what stands in host, in the order in which they stood there.
pub fn law_of_worked_pairs()
    ensures two_pairs { text two_pairs ≡ two_pairs_text }
    ensures taken { text taken ≡ taken_text }
    ensures removed { text (lent ++ removes ∷ []) ≡ removed_text }
    ensures lent { ifs_of (stack_at (run lent) []) ≡ ifs_lent }
    ensures home { ifs_of (stack_at (run (lent ++ removes ∷ [])) []) ≡ ifs_home }
{}

/// Readers, with the texts that they leave: a jail is removed while a reader is open there, for which the
/// last version of each of its tables is kept; the reader gives its line all the same, and nothing is kept
/// once it is closed. And listings, of a jail and of host, which are opened, read line by line and closed;
/// where no jail is, the opening is refused and nothing follows.
pub fn law_of_worked_readers()
    ensures unread { text removed_unread ≡ removed_unread_text }
    ensures read { text removed_read ≡ removed_read_text }
    ensures lists { serial_run lists ≡ listed }
    ensures listed { text (serial_run lists) ≡ listed_text }
    ensures host { text (serial_run (lists_at [])) ≡ listed_host_text }
    ensures absent { text (serial_run (lists_at jail_a)) ≡ listed_absent_text }
{}

/// Sets that are closed in a history, and some that are not: since another jail's limit decides,
/// since host decides which unit is free, and since host sets up a half that stands there.
pub fn law_of_closed_rows()
    ensures alone { IsClosed (only jail_a) twice }
    ensures family { IsClosed family child }
    ensures child { ¬ IsClosed (only jail_a_b) child }
    ensures any_unit { ¬ IsClosed pair_alone any_pair }
    ensures host { IsClosed (only []) any_pair }
    ensures loan { IsClosed jail_and_pair loan }
    ensures raised { ¬ IsClosed jail_and_pair raised }
{}

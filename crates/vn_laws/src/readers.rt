ghost use Rattle.std.specs.Prelude.{◌≡◌, ◌++◌, ℕ, List, [], ◌∷◌, map};
ghost use Rattle.vn_cells.specs.declared.event.Event.{Event as AnyEvent};
ghost use Rattle.vn_cells.specs.world.Names.{Path as AnyPath};
ghost use Rattle.vn_cells.specs.machine.Events.{IsBuilt};
ghost use Rattle.vn_cells.specs.machine.Snapshots.{IsSnapshot};
ghost use Rattle.vn_cells.specs.machine.Step.{opening, run};
ghost use Rattle.vn_cells.specs.machine.Versions.{kept, open_readers, readers_in};
ghost use Rattle.vn_laws.specs.Counting.{IsCounted, CountsOn};
ghost use Rattle.vn_laws.specs.Versions.{kept_since, least_of, since};

/// What the program runs so far opens no reader, so that none is open at the end and no version kept.
pub fn law_of_unread_histories()
    ensures opened { (events : List AnyEvent) → IsBuilt events → open_readers (run events) ≡ 0 }
    ensures kept { (events : List AnyEvent) → IsBuilt events → kept events ≡ 0 }
{}

/// The versions that are kept are those that were retired since the first reader was opened that is open at
/// the end.
pub fn law_of_kept_versions()
    ensures { (events : List AnyEvent) → kept events ≡ kept_since opening events }
{}

/// The same counted one event after another: any count will do at the opening, each event counts on, and at the
/// end the versions that are kept are what the count gained since the first Open among those of the open readers.
pub fn law_of_counted_versions()
    ensures opening { (count : ℕ) (since_of : AnyPath × ℕ → ℕ) → IsCounted [] count since_of }
    ensures step { (events : List AnyEvent) (event : AnyEvent) (count next : ℕ) (before after : AnyPath × ℕ → ℕ)
        → IsCounted events count before → CountsOn (run events) event count next before after
        → IsCounted (events ++ event ∷ []) next after }
    ensures kept { (events : List AnyEvent) (count : ℕ) (since_of : AnyPath × ℕ → ℕ)
        → IsCounted events count since_of
        → kept events ≡ since count (least_of (map since_of (readers_in (run events)))) }
{}

/// The next line of a reader is that of its table as it stood before the reader was opened, whatever was
/// moved or destroyed since.
pub fn law_of_reader_lines()
    ensures { (events : List AnyEvent) → IsSnapshot events }
{}

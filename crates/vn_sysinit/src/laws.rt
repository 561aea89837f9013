ghost use Rattle.std.specs.Prelude.{List};
ghost use Rattle.std.specs.List.Sorted.{IsPermutation};
ghost use Rattle.vn_sysinit.specs.declared.entry.SysEntry.{SysEntry as Entry};
ghost use Rattle.vn_sysinit.specs.Rows.{constructor_entries, RunInTableOrder};

/// In whatever order the constructors of a stack are registered, each is accepted, and they run in the
/// order of their table.
pub fn law_of_constructor_rows()
    ensures { (entries : List Entry) →
        IsPermutation constructor_entries entries → RunInTableOrder entries }
{}

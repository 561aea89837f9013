ghost use Rattle.std.specs.Prelude.{◌≡◌, IfOk, OnOk};
ghost use Rattle.vn_cells.specs.texts.Reports.{sections_of};
ghost use Rattle.vn_kernel.specs.Fields.{fields};
ghost use Rattle.vn_kernel.specs.Stands.{IsOpen};
ghost use Rattle.vn_kernel.specs.Worlds.{with_entry, world_of};

use crate::construction::construct;
use crate::constructors::Constructors;
use crate::readers::Readers;
use crate::transcripts::{Transcripts, note, sections_of};
use std::alloc::Global;
use std::collections::BTreeMap;
use vn_cells::{Entry, SectionText};
use vn_jail::Jails;
use vn_types::{List, NoMemory, Path, Sid};
use vn_vmove::Tables;

/// What the kernel keeps.
#[derive(Drop)]
pub(crate) struct State {
    pub(crate) alloc: Global,
    /// What runs when a stack is constructed or destroyed.
    pub(crate) constructors: Constructors,
    /// Milliseconds.
    pub(crate) clock: u64,
    /// The paths that were ever constructed, with their numbers.
    pub(crate) jails: Jails,
    /// The transcripts. A path that was never constructed may have one.
    pub(crate) logs: Transcripts,
    /// The open readers. A path that has one has a transcript.
    pub(crate) readers: Readers,
    /// How many versions of listings were retired while a reader was open.
    pub(crate) retired: u64,
    /// The numbers of the pairs that exist, by home and unit.
    pub(crate) units: BTreeMap<(Path, u32), u32>,
    /// What is kept of stacks and pairs, by their numbers.
    pub(crate) tables: Tables,
}

impl State {
    /// Host alone, just constructed.
    pub(crate) fn new(alloc: Global) -> Result<State, NoMemory>
        ensures { IfOk result (λ s. IsOpen (fields s)) }
    {
        let jails = Jails::new(alloc)?;
        jails.law_of_tree();
        let constructors = Constructors::new(alloc)?;
        let tables = Tables::new(alloc)?;
        let logs = BTreeMap::new(alloc);
        let readers = BTreeMap::new(alloc);
        let units = BTreeMap::new(alloc);
        let mut state = State {
            alloc,
            constructors,
            clock: 0,
            jails,
            logs,
            readers,
            retired: 0,
            units,
            tables,
        };
        construct(&mut state, Path::host(alloc), Sid(0))?;
        Ok(state)
    }

    /// Adds an entry to the transcript of a path.
    pub(crate) fn note(&mut self, path: &Path, entry: Entry) -> Result<(), NoMemory>
        ensures { OnOk result (fields self.new ≡ with_entry path.now entry (fields self.old)) }
    {
        note(self.alloc, &mut self.logs, path, entry)
    }

    /// The transcripts that are not empty, in the order of their paths.
    pub(crate) fn into_sections(self) -> Result<List<SectionText>, NoMemory>
        ensures { IfOk result (λ r. r ≡ sections_of (world_of (fields self))) }
    {
        let State {
            alloc,
            constructors: _,
            clock: _,
            jails: _,
            logs,
            readers: _,
            retired: _,
            units: _,
            tables: _,
        } = self;
        sections_of(alloc, logs)
    }
}

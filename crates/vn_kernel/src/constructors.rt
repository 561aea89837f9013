ghost use Rattle.std.specs.Prelude.{◌≡◌, true, false, reverse, filter_map, IfOk, OnOk};
ghost use Rattle.std.specs.List.{slice_get};
ghost use Rattle.vn_types.specs.Words.{is_name};
ghost use Rattle.vn_sysinit.specs.Rows.{constructor_entries};
ghost use Rattle.vn_sysinit.specs.Table.{is_taken, with_entry};
ghost use Rattle.vn_kernel.specs.Constructors.{constructor_name, constructor_named, constructors, number_before};

use std::alloc::Global;
use std::marker::Model;
use vn_sysinit::{RegisterFault, SysEntry, SysTable, law_of_constructor_rows};
use vn_types::{List, Name, NoMemory};

/// A constructor of a stack, with its destructor, by its name in the table (VNET(9)).
#[derive(Clone, Copy, Drop)]
pub(crate) enum Constructor {
    VnetData,
    VnetIf,
    VnetCloner,
    Loif,
    Inaddr,
    Route,
    Arp,
    Ip,
    Icmp,
    Udp,
    VnetIfReturn,
}

impl Constructor {
    /// All of them. In which order they run is up to the table.
    const ALL: [Constructor; 11] = [
        Constructor::VnetData,
        Constructor::VnetIf,
        Constructor::VnetCloner,
        Constructor::Loif,
        Constructor::Inaddr,
        Constructor::Route,
        Constructor::Arp,
        Constructor::Ip,
        Constructor::Icmp,
        Constructor::Udp,
        Constructor::VnetIfReturn,
    ];

    /// The constructor of that name.
    fn named(name: &Name) -> Option<Constructor>
        ensures { result ≡ constructor_named name.now }
    {
        Constructor::ALL
            .iter()
            .find(|constructor| constructor.text() == name.text())
            .copied()
    }

    /// What it is called.
    #[tactic(auto, unfolding(vn_types::specs::NameWords::name_of))]
    pub(crate) fn name(self) -> Name
        ensures { result ≡ constructor_name self }
    {
        let Some(name) = Name::fixed(self.text()) else {
            unreachable!();
        };
        name
    }

    #[tactic(auto, unfolding(vn_types::specs::Words::is_name))]
    fn text(self) -> &'static [u8]
        ensures text { result.now ≡ constructor_name self }
        ensures name { is_name result.now ≡ true }
    {
        match self {
            Constructor::VnetData => b"vnet_data",
            Constructor::VnetIf => b"vnet_if",
            Constructor::VnetCloner => b"vnet_cloner",
            Constructor::Loif => b"loif",
            Constructor::Inaddr => b"inaddr",
            Constructor::Route => b"route",
            Constructor::Arp => b"arp",
            Constructor::Ip => b"ip",
            Constructor::Icmp => b"icmp",
            Constructor::Udp => b"udp",
            Constructor::VnetIfReturn => b"vnet_if_return",
        }
    }

    /// Its entry in the table.
    fn entry(self) -> SysEntry
        ensures { slice_get constructor_entries (number_before self) ≡ Some result }
    {
        let (subsystem, order) = match self {
            Constructor::VnetData => (1, 0),
            Constructor::VnetIf => (2, 0),
            Constructor::VnetCloner => (2, 1),
            Constructor::Loif => (3, 0),
            Constructor::Inaddr => (4, 0),
            Constructor::Route => (4, 1),
            Constructor::Arp => (5, 0),
            Constructor::Ip => (6, 0),
            Constructor::Icmp => (6, 1),
            Constructor::Udp => (6, 2),
            Constructor::VnetIfReturn => (9, 0),
        };
        SysEntry {
            subsystem,
            order,
            name: self.name(),
        }
    }
}

/// The constructors in the order of their table, which is that of construction, and in the reverse, as a fact
/// of the type.
#[derive(Drop)]
pub(crate) struct Constructors {
    up: Vec<Constructor>,
    down: Vec<Constructor>,
}

impl Model for Constructors {
    ghost use Rattle.std.specs.Prelude.{◌≡◌, List as Values, reverse};
    ghost use Rattle.vn_kernel.specs.Constructors.{constructors};
    ghost use Rattle.vn_kernel.specs.declared.constructors.Constructor.{Constructor as C};

    ghost Value = { Values C × Values C };

    ghost view = { λ a. (a.up.items, a.down.items) };

    ghost invariant = { λ a. (a.up.items ≡ constructors) × (a.down.items ≡ reverse constructors) };
}

impl Constructors {
    /// Registers all in a table, and takes the orders from it.
    pub(crate) fn new(alloc: Global) -> Result<Constructors, NoMemory> {
        law_of_constructor_rows();
        let mut table = SysTable::new(alloc);
        for constructor in Constructor::ALL {
            register(&mut table, constructor.entry())?;
        }
        let up = read(alloc, &table.up_list()?)?;
        let down = read(alloc, &table.down_list()?)?;
        Ok(Constructors { up, down })
    }

    /// The constructors in the order of construction.
    pub(crate) fn up(&self) -> &[Constructor]
        ensures { result.now ≡ constructors }
    {
        self.up.as_slice()
    }

    /// The constructors in the order of destruction.
    pub(crate) fn down(&self) -> &[Constructor]
        ensures { result.now ≡ reverse constructors }
    {
        self.down.as_slice()
    }
}

/// Registers an entry that is not taken.
fn register(table: &mut SysTable, entry: SysEntry) -> Result<(), NoMemory>
    requires { is_taken entry table.old ≡ false }
    ensures { OnOk result (table.new ≡ with_entry entry table.old) }
{
    match table.register(entry) {
        Ok(()) => Ok(()),
        Err(RegisterFault::NoMemory) => Err(NoMemory),
        Err(RegisterFault::Taken) => unreachable!(),
    }
}

/// The constructors of these names.
fn read(alloc: Global, names: &List<Name>) -> Result<Vec<Constructor>, NoMemory>
    ensures { IfOk result (λ r. r.items ≡ filter_map constructor_named names.now) }
{
    let constructors = names
        .as_slice()
        .iter()
        .filter_map(|name| Constructor::named(name))
        .collect(alloc)?;
    Ok(constructors)
}

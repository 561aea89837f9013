ghost use Rattle.std.specs.Prelude.{◌≡◌, ◌==◌, IfOk};
ghost use Rattle.std.specs.List.{list_all};
ghost use Rattle.vn_types.specs.declared.interface.IfName.TheVariants.{Epair as Named};
ghost use Rattle.vn_types.specs.declared.interface.Side.TheVariants.{A};
ghost use Rattle.vn_types.specs.InterfaceWords.{ifname_text};
ghost use Rattle.vn_rules.specs.Resolution.{is_no_station};
ghost use Rattle.vn_cells.specs.commands.Pairs.{any_making, mac_setting, making};
ghost use Rattle.vn_cells.specs.machine.Commands.{far_rule};
ghost use Rattle.vn_cells.specs.machine.Reach.{MakesPair};
ghost use Rattle.vn_cells.specs.world.World.{common_of};
ghost use Rattle.vn_jail.specs.Tree.{path_at};
ghost use Rattle.vn_kernel.specs.Fields.{fields};
ghost use Rattle.vn_kernel.specs.Stands.{AnsweredBy, HasRoom, HasStack};

use crate::state::State;
use crate::tables;
use std::alloc::Global;
use vn_cells::Outcome;
use vn_types::{Errno, If, IfName, Mac, NoMemory, Octets, Sid, Side, write_ifname};

/// Makes the pair of a unit at home, or of the lowest one that is free, and tells the name of its side a
/// (ifconfig(8), `create`).
pub(crate) fn make_pair(
    state: &mut State,
    home: Sid,
    unit: Option<u32>,
) -> Result<Outcome, NoMemory>
    requires stack { HasStack home.0 (fields state.old) }
    requires room { HasRoom (fields state.old) }
    ensures { IfOk result (λ outcome.
        AnsweredBy (λ w. far_rule (common_of w) (path_at state.old.jails home.0) (MakesPair unit) w) outcome
        (fields state.old) (fields state.new)) }
{
    match unit {
        Some(unit) => make_unit(state, home, unit),
        None => make_lowest(state, home),
    }
}

/// Makes the pair of a unit.
fn make_unit(state: &mut State, home: Sid, unit: u32) -> Result<Outcome, NoMemory>
    requires stack { HasStack home.0 (fields state.old) }
    requires room { HasRoom (fields state.old) }
    ensures { IfOk result (λ outcome. AnsweredBy (making (path_at state.old.jails home.0) unit) outcome
        (fields state.old) (fields state.new)) }
{
    let number = match tables::make_pair(&mut state.tables, home, unit)? {
        Ok(number) => number,
        Err(errno) => return Ok(Outcome::Refused(errno)),
    };
    let path = state.jails.path(home).copy()?;
    state.units.insert((path, unit), number)?;
    let name = first_name(state.alloc, unit)?;
    Ok(Outcome::Value(name))
}

/// Makes the pair of the lowest unit that is free.
fn make_lowest(state: &mut State, home: Sid) -> Result<Outcome, NoMemory>
    requires stack { HasStack home.0 (fields state.old) }
    requires room { HasRoom (fields state.old) }
    ensures { IfOk result (λ outcome. AnsweredBy (any_making (path_at state.old.jails home.0)) outcome
        (fields state.old) (fields state.new)) }
{
    let unit = state.tables.pairs.lowest_free(home, &state.tables.ifs);
    make_unit(state, home, unit)
}

/// The name of side a of a unit, as text.
fn first_name(alloc: Global, unit: u32) -> Result<Octets, NoMemory>
    ensures { IfOk result (λ text. text ≡ ifname_text (Named unit A)) }
{
    let name = IfName::Epair {
        unit,
        side: Side::A,
    };
    let mut text = Vec::new(alloc);
    write_ifname(name, &mut text)?;
    Octets::from_slice(alloc, text.as_slice())
}

/// Gives the half of that name in a living stack a hardware address (ifconfig(8), `ether`). Takes no memory.
pub(crate) fn set_mac(state: &mut State, sid: Sid, name: IfName, mac: Mac) -> Outcome
    requires { HasStack sid.0 (fields state.old) }
    ensures { AnsweredBy (mac_setting (path_at state.old.jails sid.0) name mac) result
        (fields state.old) (fields state.new) }
{
    let half = match state.tables.ifs.find(sid, name) {
        None => return Outcome::Refused(Errno::NxIo),
        Some(If::Lo0) => return Outcome::Refused(Errno::Inval),
        Some(If::Half(half)) => half,
    };
    if is_no_station(mac) {
        return Outcome::Refused(Errno::Inval);
    }
    state.tables.pairs.set_mac(half, mac);
    Outcome::Done
}

/// Whether no station has a hardware address: it is that of a group, or all zero (IEEE 802).
fn is_no_station(mac: Mac) -> bool
    ensures { result ≡ is_no_station mac }
{
    mac.0[0] % 2 == 1 || are_zero(&mac.0)
}

fn are_zero(octets: &[u8]) -> bool
    ensures { result ≡ list_all (λ octet. octet == 0) octets.now }
{
    octets.iter().all(|octet| *octet == 0)
}

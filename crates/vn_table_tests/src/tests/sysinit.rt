use std::test::Fail;
use vn_sysinit::{RegisterFault, SysEntry, SysTable, law_of_constructor_rows};
use vn_types::Name;

const UP: [&str; 11] = [
    "vnet_data",
    "vnet_if",
    "vnet_cloner",
    "loif",
    "inaddr",
    "route",
    "arp",
    "ip",
    "icmp",
    "udp",
    "vnet_if_return",
];

const DOWN: [&str; 11] = [
    "vnet_if_return",
    "udp",
    "icmp",
    "ip",
    "arp",
    "route",
    "inaddr",
    "loif",
    "vnet_cloner",
    "vnet_if",
    "vnet_data",
];

#[test]
fn constructors(rt: HostRuntime) -> Result<(), Fail> {
    // Subsystem, order and name, and whether the entry is taken: the constructors of a stack, out of order.
    let rows = [
        (6, 2, "udp", false),
        (1, 0, "vnet_data", false),
        (9, 0, "vnet_if_return", false),
        (2, 1, "vnet_cloner", false),
        (4, 0, "inaddr", false),
        (6, 0, "ip", false),
        (4, 0, "route", true),
        (4, 1, "inaddr", true),
        (4, 1, "route", false),
        (2, 0, "vnet_if", false),
        (6, 1, "icmp", false),
        (6, 1, "icmp", true),
        (5, 0, "arp", false),
        (3, 0, "loif", false),
    ];
    let mut table = SysTable::new(rt.alloc());
    for (subsystem, order, text, taken) in rows {
        let read = Name::read(rt.alloc(), text.as_bytes()).ok().flatten();
        let name = read.ok_or("a name")?;
        let result = table.register(SysEntry {
            subsystem,
            order,
            name,
        });
        assert_eq!(rt; result.is_ok(), !taken);
        assert_eq!(rt; matches!(result, Err(RegisterFault::Taken)), taken);
    }
    let up = table.up_list().ok().ok_or("no memory")?;
    let down = table.down_list().ok().ok_or("no memory")?;
    assert_eq!(rt; up.len(), UP.len());
    for (name, want) in up.as_slice().iter().zip(UP) {
        assert_eq!(rt; name.text(), want.as_bytes());
    }
    assert_eq!(rt; down.len(), DOWN.len());
    for (name, want) in down.as_slice().iter().zip(DOWN) {
        assert_eq!(rt; name.text(), want.as_bytes());
    }
    law_of_constructor_rows();
    Ok(())
}
